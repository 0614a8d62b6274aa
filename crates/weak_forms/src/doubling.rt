//! The doubled graph of a table's fraction states: the first copy of a state is met as long as no mark is met, the second one from then on.

ghost use Rattle.std.specs.Prelude.{◌≡◌, ◌+◌, ◌*◌, ◌<◌, IfOk, OnOk};
ghost use Rattle.lash_model.specs.Tables.{letters, fracs};
ghost use Rattle.weak_forms.specs.Doubling.{doubled, AreDoubled};

use lash_io::Memory;
use packed_cells::Plain;
use std::alloc::Global;
use step_tables::Table;

/// The number of copies, two of each fraction state.
pub(crate) fn copies(table: &Table<Plain>) -> u32
    ensures { result ≡ 2 * fracs table.now.table }
{
    // A table has few states, which the number of its letters tells.
    let _letters = table.letters();
    2 * table.fracs()
}

/// The copy after a copy and a letter.
fn doubled_step(table: &Table<Plain>, state: u32, letter: u32) -> u32
    requires state { state < 2 * fracs table.now.table }
    requires letter { letter < letters table.now.table }
    ensures value { result ≡ doubled table.now.table state letter }
    ensures below { result < 2 * fracs table.now.table }
{
    let _letters = table.letters();
    let fracs = table.fracs();
    if state < fracs {
        let target = table.frac_step(state, letter);
        if table.colour(target) {
            target
        } else {
            target + fracs
        }
    } else {
        table.frac_step(state - fracs, letter) + fracs
    }
}

/// Appends the targets of a copy.
fn push_row(table: &Table<Plain>, state: u32, rows: &mut Vec<u32>) -> Result<(), Memory>
    requires state { state < 2 * fracs table.now.table }
    requires before { AreDoubled table.now.table state 0 rows.old.items }
    ensures { OnOk result (AreDoubled table.now.table (state + 1) 0 rows.new.items) }
{
    for letter in 0..table.letters() {
        match rows.push(doubled_step(table, state, letter)) {
            Ok(()) => {}
            Err(_) => return Err(Memory),
        }
    }
    Ok(())
}

/// The rows of the doubled graph. The one error is Memory: out of memory.
pub(crate) fn doubled_rows(alloc: Global, table: &Table<Plain>) -> Result<Vec<u32>, Memory>
    ensures { IfOk result (λ rows. AreDoubled table.now.table (2 * fracs table.now.table) 0 rows.items) }
{
    let mut rows = Vec::new(alloc);
    for state in 0..copies(table) {
        match push_row(table, state, &mut rows) {
            Ok(()) => {}
            Err(Memory) => return Err(Memory),
        }
    }
    Ok(rows)
}
