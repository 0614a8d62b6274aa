//! The parts of a table's fraction states.

ghost use Rattle.std.specs.Prelude.{◌≡◌, ◌+◌, ◌*◌, ◌<◌, take, IfOk, OnOk};
ghost use Rattle.lash_model.specs.Tables.{letters, fracs};
ghost use Rattle.components.specs.Partings.{AreParts};

use crate::parts::{Parts, parts_of};
use lash_io::Memory;
use packed_cells::Cells;
use std::alloc::Global;
use step_tables::Table;

// Appends the targets of a fraction state.
fn push_row<C: Cells>(table: &Table<C>, state: u32, rows: &mut Vec<u32>) -> Result<(), Memory>
    requires state { state < fracs table.now.table }
    requires before { rows.old.items ≡ take (state * letters table.now.table) table.now.table.frac_rows }
    ensures { OnOk result (rows.new.items ≡ take ((state + 1) * letters table.now.table) table.now.table.frac_rows) }
{
    for letter in 0..table.letters() {
        match rows.push(table.frac_step(state, letter)) {
            Ok(()) => {}
            Err(_) => return Err(Memory),
        }
    }
    Ok(())
}

/// The rows of targets of a table's fraction states, row after row. The one error is Memory: out of memory.
pub fn frac_rows_of<C: Cells>(alloc: Global, table: &Table<C>) -> Result<Vec<u32>, Memory>
    ensures { IfOk result (λ rows. rows.items ≡ table.now.table.frac_rows) }
{
    let letters = table.letters();
    let cells = table.fracs() as usize * letters as usize;
    let mut rows = match Vec::with_capacity(alloc, cells) {
        Ok(rows) => rows,
        Err(_) => return Err(Memory),
    };
    for state in 0..table.fracs() {
        match push_row(table, state, &mut rows) {
            Ok(()) => {}
            Err(Memory) => return Err(Memory),
        }
    }
    Ok(rows)
}

/// The parts of a table's fraction states, as `parts_of` finds them. The one error is Memory: out of memory.
pub fn components<C: Cells>(alloc: Global, table: &Table<C>) -> Result<Parts, Memory>
    ensures { IfOk result (λ p. AreParts table.now.table.frac_rows (letters table.now.table) (fracs table.now.table) p) }
{
    let letters = table.letters();
    let rows = frac_rows_of(alloc, table)?;
    parts_of(alloc, rows.as_slice(), letters, table.fracs())
}
