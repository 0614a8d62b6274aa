//! From the table on all tracks that reads lassos to that of the declared variables: the vectors of whole numbers if all of them are
//! integers, and else those that are whole at the integers.

ghost use Rattle.std.specs.Prelude.{◌≡◌, ◌<◌, ◌≤◌, ◌^◌, map, length, IfOk, IfErr};
ghost use Rattle.std.specs.List.{list_all};
ghost use Rattle.lash_model.specs.Tables.{fracs};
ghost use Rattle.formula_core.specs.Counts.{is_int};
ghost use Rattle.formula_core.specs.Variables.{sort_of};
ghost use Rattle.set_compile.specs.Compiling.{IsOfIntegers, IsDeclared, IsDeclaringHeavy};
ghost use Rattle.set_compile.specs.Kinds.{IsShaped};

use crate::CompileError;
use crate::build::{Build, Mode};
use crate::minimizing::minimized;
use crate::wholes::with_wholes;
use formula_core::Sort;
use lash_io::Memory;
use product_ops::restrict_to_ints;
use std::alloc::Global;
use weak_min::Canon;

/// Whether all of them are integers.
fn are_integers(sorts: &[Sort]) -> bool
    ensures { result ≡ list_all is_int (map sort_of sorts.now) }
{
    for sort in sorts {
        if *sort == Sort::Real {
            return false;
        }
    }
    true
}

/// The canonical diagram of the vectors of whole numbers that a table with fraction states accepts. Fails only if memory runs out.
fn integers(alloc: Global, build: &Build, wide: &Canon) -> Result<Canon, CompileError>
    requires fractions { 0 < fracs wide.now.table }
    requires base { wide.now.table.base ≡ build.now.base }
    ensures made { IfOk result (λ c. IsOfIntegers build.now wide.now.table.tracks wide.now.table c.table) }
    ensures never { IfErr result (λ e. e ≡ CompileError.Memory) }
{
    let table = match restrict_to_ints(alloc, wide.table()) {
        Ok(table) => table,
        Err(Memory) => return Err(CompileError::Memory),
    };
    match minimized(alloc, &table) {
        Ok(made) => Ok(made),
        Err(error) => Err(error),
    }
}

/// The canonical table over declared variables, from the table with fraction states on all tracks. `Heavy` comes exactly if some variable is
/// real, and a step of an integer variable passes the limit, at the first that does.
pub(crate) fn declared(
    alloc: Global,
    build: &Build,
    sorts: &[Sort],
    wide: Canon,
) -> Result<Canon, CompileError>
    requires mode { build.now.mode ≡ Mode.Mixed }
    requires shape { IsShaped build.now.mode build.now.base (length sorts.now) wide.table }
    requires letters { build.now.base ^ length sorts.now ≤ 4096 }
    requires limit { build.now.limit ≤ 16777216 }
    ensures made { IfOk result (λ c. IsDeclared Mode.Mixed (list_all is_int (map sort_of sorts.now)) build.now (map sort_of sorts.now) wide.table c.table) }
    ensures heavy { IfErr result (λ e. (e ≡ CompileError.Memory → ⊥) → (e ≡ CompileError.Heavy)
        × IsDeclaringHeavy Mode.Mixed (list_all is_int (map sort_of sorts.now)) build.now (map sort_of sorts.now) wide.table) }
{
    if are_integers(sorts) {
        return integers(alloc, build, &wide);
    }
    with_wholes(alloc, build, sorts, wide)
}
