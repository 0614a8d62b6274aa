//! Copies of a table's lists.

ghost use Rattle.std.specs.Prelude.{◌≡◌, ◌+◌, ◌*◌, ◌<◌, take, IfOk, OnOk};
ghost use Rattle.lash_model.specs.Tables.{letters, ints, IsTable};

use lash_io::Memory;
use packed_cells::Cells;
use std::alloc::Global;
use step_tables::Table;

/// Appends the targets of a state.
fn push_row<C: Cells>(table: &Table<C>, state: u32, rows: &mut Vec<u32>) -> Result<(), Memory>
    requires state { state < ints table.now.table }
    requires before { rows.old.items ≡ take (state * letters table.now.table) table.now.table.rows }
    ensures { OnOk result (rows.new.items ≡ take ((state + 1) * letters table.now.table) table.now.table.rows) }
{
    for letter in 0..table.letters() {
        match rows.push(table.int_step(state, letter)) {
            Ok(()) => {}
            Err(_) => return Err(Memory),
        }
    }
    Ok(())
}

/// The rows of targets of a table's integer states, one after the other.
pub fn rows_of<C: Cells>(alloc: Global, table: &Table<C>) -> Result<Vec<u32>, Memory>
    ensures { IfOk result (λ rows. rows.items ≡ table.now.table.rows) }
{
    let letters = table.letters();
    let cells = table.ints() as usize * letters as usize;
    let mut rows = match Vec::with_capacity(alloc, cells) {
        Ok(rows) => rows,
        Err(_) => return Err(Memory),
    };
    for state in 0..table.ints() {
        match push_row(table, state, &mut rows) {
            Ok(()) => {}
            Err(Memory) => return Err(Memory),
        }
    }
    Ok(rows)
}

/// The outputs of a table's integer states.
pub fn outs_of<C: Cells>(alloc: Global, table: &Table<C>) -> Result<Vec<u32>, Memory>
    ensures { IfOk result (λ outs. outs.items ≡ table.now.table.outs) }
{
    let mut outs = match Vec::with_capacity(alloc, table.ints() as usize) {
        Ok(outs) => outs,
        Err(_) => return Err(Memory),
    };
    for state in 0..table.ints() {
        match outs.push(table.out(state)) {
            Ok(()) => {}
            Err(_) => return Err(Memory),
        }
    }
    Ok(outs)
}

/// The roots of a table, one for each sign vector.
pub fn roots_of<C: Cells>(alloc: Global, table: &Table<C>) -> Result<Vec<u32>, Memory>
    requires { IsTable table.now.table }
    ensures { IfOk result (λ roots. roots.items ≡ table.now.table.roots) }
{
    let signs = 2u32.pow(table.tracks());
    let mut roots = match Vec::with_capacity(alloc, signs as usize) {
        Ok(roots) => roots,
        Err(_) => return Err(Memory),
    };
    for sign in 0..signs {
        match roots.push(table.root(sign)) {
            Ok(()) => {}
            Err(_) => return Err(Memory),
        }
    }
    Ok(roots)
}

/// The colours of a table's fraction states: 1 for yes, and 0 for no.
pub fn colours_of<C: Cells>(alloc: Global, table: &Table<C>) -> Result<Vec<u32>, Memory>
    requires { IsTable table.now.table }
    ensures { IfOk result (λ colours. colours.items ≡ table.now.table.colours) }
{
    let mut colours = match Vec::with_capacity(alloc, table.fracs() as usize) {
        Ok(colours) => colours,
        Err(_) => return Err(Memory),
    };
    for state in 0..table.fracs() {
        match colours.push(u32::from(table.colour(state))) {
            Ok(()) => {}
            Err(_) => return Err(Memory),
        }
    }
    Ok(colours)
}
