//! The step of a negation: the complement of a canonical table. It has no cells.

ghost use Rattle.std.specs.Prelude.{◌≡◌, ◌<◌, ℕ, ℤ, List, IfOk, IfErr};
ghost use Rattle.lash_model.specs.Formulas.{Formula};
ghost use Rattle.lash_model.specs.Tables.{fracs, IsDiagram};
ghost use Rattle.lash_model.specs.Sets.{set_of};
ghost use Rattle.set_compile.specs.Kinds.{IsOfMode, Stands, AcceptOthers, IsShaped};
ghost use Rattle.set_compile.specs.declared.build.Mode.{Mode as ModeOfModel};

use crate::CompileError;
use crate::minimizing::minimized;
use product_ops::complement;
use std::alloc::Global;
use weak_min::Canon;

/// The opposite of a diagram. States that behave alike do so with exchanged outputs too, so nothing is left to be made canonical.
fn opposite_diagram(part: Canon) -> Canon
    requires { IsDiagram part.table }
    ensures shape { (mode : ModeOfModel) → IsOfMode mode part.table → IsShaped mode part.table.base part.table.tracks result.table }
    ensures others { AcceptOthers part.table result.table }
    ensures stands { (f : Formula) (s : List ℤ → List ℤ) → Stands part.table (set_of f s) → Stands result.table (λ ns d. set_of f s ns d → ⊥) }
{
    let mut table = part.into_table();
    complement(&mut table);
    Canon::new(table)
}

/// The opposite of a table with fraction states. The colours of states on no loop are those of ranks, which must be found again.
fn opposite_fractions(alloc: Global, part: Canon) -> Result<Canon, CompileError>
    requires { 0 < fracs part.table }
    ensures shape { IfOk result (λ c. (mode : ModeOfModel) → IsOfMode mode part.table → IsShaped mode part.table.base part.table.tracks c.table) }
    ensures others { IfOk result (λ c. AcceptOthers part.table c.table) }
    ensures stands { IfOk result (λ c. (f : Formula) (s : List ℤ → List ℤ) → Stands part.table (set_of f s) → Stands c.table (λ ns d. set_of f s ns d → ⊥)) }
    ensures never { IfErr result (λ e. e ≡ CompileError.Memory) }
{
    let mut table = part.into_table();
    complement(&mut table);
    match minimized(alloc, &table) {
        Ok(made) => Ok(made),
        Err(error) => Err(error),
    }
}

/// The canonical table that accepts what the given one does not.
pub fn opposite(alloc: Global, part: Canon) -> Result<Canon, CompileError>
    ensures shape { IfOk result (λ c. (mode : ModeOfModel) → IsOfMode mode part.table → IsShaped mode part.table.base part.table.tracks c.table) }
    ensures others { IfOk result (λ c. AcceptOthers part.table c.table) }
    ensures stands { IfOk result (λ c. (f : Formula) (s : List ℤ → List ℤ) → Stands part.table (set_of f s) → Stands c.table (λ ns d. set_of f s ns d → ⊥)) }
    ensures never { IfErr result (λ e. e ≡ CompileError.Memory) }
{
    if part.table().fracs() == 0 {
        return Ok(opposite_diagram(part));
    }
    opposite_fractions(alloc, part)
}
