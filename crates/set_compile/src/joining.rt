//! The step of a conjunction or a disjunction: the product of two tables, made canonical.

ghost use Rattle.std.specs.Prelude.{◌≡◌, ◌≤◌, ◌^◌, ℕ, ℤ, List, length, IfOk, IfErr};
ghost use Rattle.lash_model.specs.Formulas.{Formula};
ghost use Rattle.lash_model.specs.Sets.{set_of};
ghost use Rattle.product_ops.specs.Operations.{joined};
ghost use Rattle.product_ops.specs.Products.{HaveSameKind, IsHeavyProduct};
ghost use Rattle.set_compile.specs.Kinds.{IsOfMode, Stands, IsShaped};
ghost use Rattle.set_compile.specs.Steps.{IsOfPairs};
ghost use Rattle.set_compile.specs.declared.build.Mode.{Mode as ModeOfModel};

use crate::CompileError;
use crate::minimizing::minimized;
use product_ops::{Op, TrackMap, product};
use std::alloc::Global;
use step_tables::BuildError;
use weak_min::Canon;

/// The canonical table of the truth function of two canonical tables of one kind and one base. The map's lists have as many entries as
/// they have tracks, its letters are at most 4,096, and the limit of cells is at most 16,777,216. `Heavy` comes exactly if the product
/// passes the limit.
pub fn join(
    alloc: Global,
    left: &Canon,
    right: &Canon,
    map: &TrackMap,
    op: Op,
    limit: u64,
) -> Result<Canon, CompileError>
    requires kinds { HaveSameKind left.now.table right.now.table }
    requires base { left.now.table.base ≡ right.now.table.base }
    requires left_tracks { length map.now.left ≡ left.now.table.tracks }
    requires right_tracks { length map.now.right ≡ right.now.table.tracks }
    requires letters { left.now.table.base ^ map.now.tracks ≤ 4096 }
    requires limit { limit ≤ 16777216 }
    ensures shape { IfOk result (λ c. (mode : ModeOfModel) → IsOfMode mode left.now.table → IsShaped mode left.now.table.base map.now.tracks c.table) }
    ensures made { IfOk result (λ c. IsOfPairs op left.now.table right.now.table map.now limit c.table) }
    ensures stands { IfOk result (λ c. (f g : Formula) (s u : List ℤ → List ℤ) → Stands left.now.table (set_of f s) → Stands right.now.table (set_of g u) → Stands c.table (joined op (set_of f s) (set_of g u) map.now)) }
    ensures heavy { IfErr result (λ e. e ≡ CompileError.Heavy → IsHeavyProduct left.now.table right.now.table map.now limit) }
    ensures plain { IfErr result (λ e. (e ≡ CompileError.Memory → ⊥) → e ≡ CompileError.Heavy) }
{
    let table = match product(alloc, left.table(), right.table(), map, op, limit) {
        Ok(table) => table,
        Err(BuildError::Heavy) => return Err(CompileError::Heavy),
        Err(BuildError::Memory) => return Err(CompileError::Memory),
    };
    match minimized(alloc, &table) {
        Ok(made) => Ok(made),
        Err(error) => Err(error),
    }
}
