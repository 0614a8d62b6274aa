//! What each step ends with: its table made canonical.

ghost use Rattle.std.specs.Prelude.{◌≡◌, ◌<◌, IfOk, IfErr};
ghost use Rattle.lash_model.specs.Tables.{letters, fracs};
ghost use Rattle.part_laws.specs.CanonicalMixed.{fraction_graph};
ghost use Rattle.part_laws.specs.Graphs.{IsWeak};
ghost use Rattle.product_ops.specs.Products.{HaveSameKind};
ghost use Rattle.set_compile.specs.Kinds.{IsOfMode, AcceptSame, IsShaped};
ghost use Rattle.set_compile.specs.declared.build.Mode.{Mode as ModeOfModel};

use crate::CompileError;
use lash_io::Memory;
use packed_cells::Cells;
use std::alloc::Global;
use step_tables::Table;
use weak_min::{Canon, canonical};

/// The canonical table of a diagram, or of a table with fraction states whose fraction part is weak. Fails only if memory runs out.
pub(crate) fn minimized<C: Cells>(alloc: Global, table: &Table<C>) -> Result<Canon, CompileError>
    requires { 0 < fracs table.now.table → IsWeak (letters table.now.table) (fraction_graph table.now.table) }
    ensures shape { IfOk result (λ c. (mode : ModeOfModel) → IsOfMode mode table.now.table → IsShaped mode table.now.table.base table.now.table.tracks c.table) }
    ensures kind { IfOk result (λ c. HaveSameKind table.now.table c.table) }
    ensures base { IfOk result (λ c. c.table.base ≡ table.now.table.base) }
    ensures tracks { IfOk result (λ c. c.table.tracks ≡ table.now.table.tracks) }
    ensures same { IfOk result (λ c. AcceptSame table.now.table c.table) }
    ensures never { IfErr result (λ e. e ≡ CompileError.Memory) }
{
    match canonical(alloc, table) {
        Ok(made) => Ok(made),
        Err(Memory) => Err(CompileError::Memory),
    }
}
