//! The canonical table of a diagram: the states that behave alike become one. Costs one refinement and one exploration.

ghost use Rattle.std.specs.Prelude.{◌≡◌, IfOk};
ghost use Rattle.lash_model.specs.Tables.{IsDiagram};
ghost use Rattle.canonical_laws.specs.Canonical.{IsCanonical, AcceptSameWords};

use crate::answers::ClassAnswers;
use crate::copies::{outs_of, roots_of, rows_of};
use crate::quotient::explored;
use lash_io::Memory;
use packed_cells::{Cells, Plain};
use state_classes::classes;
use std::alloc::Global;
use step_tables::Table;

/// The canonical table of a diagram, whose rows and outputs are given as slices. Fails only if memory runs out.
fn from_lists<C: Cells>(
    alloc: Global,
    table: &Table<C>,
    rows: &[u32],
    outs: &[u32],
) -> Result<Table<Plain>, Memory>
    requires diagram { IsDiagram table.now.table }
    requires rows { rows.now ≡ table.now.table.rows }
    requires outs { outs.now ≡ table.now.table.outs }
    ensures canonical { IfOk result (λ u. IsCanonical u.table) }
    ensures base { IfOk result (λ u. u.table.base ≡ table.now.table.base) }
    ensures tracks { IfOk result (λ u. u.table.tracks ≡ table.now.table.tracks) }
    ensures words { IfOk result (λ u. AcceptSameWords table.now.table u.table) }
{
    let letters = table.letters();
    let names = match classes(alloc, rows, letters, outs) {
        Ok(names) => names,
        Err(Memory) => return Err(Memory),
    };
    let roots = match roots_of(alloc, table) {
        Ok(roots) => roots,
        Err(Memory) => return Err(Memory),
    };
    let found = match explored(alloc, letters, rows, &names, &roots) {
        Ok(found) => found,
        Err(Memory) => return Err(Memory),
    };
    let answers = ClassAnswers { bits: outs };
    match Table::of_explored(alloc, table.base(), table.tracks(), &found, &answers) {
        Ok(made) => Ok(made),
        Err(Memory) => Err(Memory),
    }
}

/// The canonical table of a diagram: of the same base and number of tracks, it accepts the same words. Lists are copied only if they
/// do not stand as they are. Fails only if memory runs out.
pub(crate) fn canonical_diagram<C: Cells>(
    alloc: Global,
    table: &Table<C>,
) -> Result<Table<Plain>, Memory>
    requires { IsDiagram table.now.table }
    ensures canonical { IfOk result (λ u. IsCanonical u.table) }
    ensures base { IfOk result (λ u. u.table.base ≡ table.now.table.base) }
    ensures tracks { IfOk result (λ u. u.table.tracks ≡ table.now.table.tracks) }
    ensures words { IfOk result (λ u. AcceptSameWords table.now.table u.table) }
{
    match (table.lent_rows(), table.lent_outs()) {
        (Some(rows), Some(outs)) => return from_lists(alloc, table, rows, outs),
        _ => {}
    }
    let rows = match rows_of(alloc, table) {
        Ok(rows) => rows,
        Err(Memory) => return Err(Memory),
    };
    let outs = match outs_of(alloc, table) {
        Ok(outs) => outs,
        Err(Memory) => return Err(Memory),
    };
    from_lists(alloc, table, &rows, &outs)
}
