//! Which states are torn: those that lie on a loop without a mark, and in a part with a mark.

ghost use Rattle.std.specs.Prelude.{◌≡◌, ◌*◌, ◌<◌, true, false, IfOk};
ghost use Rattle.lash_model.specs.Tables.{letters, fracs};
ghost use Rattle.components.specs.Partings.{AreParts};
ghost use Rattle.weak_forms.specs.Marking.{TellMarks, TellClear, TellTorn, LiesTorn, IsOnlyGoal};
ghost use Rattle.weak_forms.specs.Doubling.{AreDoubled};

use crate::doubling::copies;
use components::{Parts, parts_of};
use lash_io::Memory;
use packed_cells::Plain;
use std::alloc::Global;
use step_tables::Table;

/// The parts of the doubled graph, which tell the states on loops without a mark. The one error is Memory: out of memory.
fn clear_parts(alloc: Global, table: &Table<Plain>, rows: &[u32]) -> Result<Parts, Memory>
    requires { AreDoubled table.now.table (2 * fracs table.now.table) 0 rows.now }
    ensures { IfOk result (λ p. TellClear table.now.table p) }
{
    match parts_of(alloc, rows, table.letters(), copies(table)) {
        Ok(parts) => Ok(parts),
        Err(Memory) => Err(Memory),
    }
}

/// Whether a state is torn.
fn is_torn(table: &Table<Plain>, parts: &Parts, marks: &[bool], clear: &Parts, state: u32) -> bool
    requires parts { AreParts table.now.table.frac_rows (letters table.now.table) (fracs table.now.table) parts.now }
    requires marks { TellMarks table.now.table parts.now (fracs table.now.table) marks.now }
    requires clear { TellClear table.now.table clear.now }
    requires state { state < fracs table.now.table }
    ensures torn { result ≡ true → LiesTorn table.now.table state }
    ensures whole { result ≡ false → LiesTorn table.now.table state → ⊥ }
{
    // A table is in range, which the number of its letters tells.
    let _letters = table.letters();
    if !table.colour(state) {
        return false;
    }
    if !clear.loops(clear.part_of(state)) {
        return false;
    }
    marks[parts.part_of(state) as usize]
}

/// For each fraction state whether it is torn. The one error is Memory: out of memory.
pub(crate) fn torn_states(
    alloc: Global,
    table: &Table<Plain>,
    parts: &Parts,
    marks: &[bool],
    rows: &[u32],
) -> Result<Vec<bool>, Memory>
    requires parts { AreParts table.now.table.frac_rows (letters table.now.table) (fracs table.now.table) parts.now }
    requires marks { TellMarks table.now.table parts.now (fracs table.now.table) marks.now }
    requires rows { AreDoubled table.now.table (2 * fracs table.now.table) 0 rows.now }
    ensures { IfOk result (λ goals. TellTorn table.now.table (fracs table.now.table) goals.items) }
{
    let clear = match clear_parts(alloc, table, rows) {
        Ok(clear) => clear,
        Err(Memory) => return Err(Memory),
    };
    let mut goals = match Vec::from_elem(alloc, false, table.fracs() as usize) {
        Ok(goals) => goals,
        Err(_) => return Err(Memory),
    };
    for state in 0..table.fracs() {
        if is_torn(table, parts, marks, &clear, state) {
            goals[state as usize] = true;
        }
    }
    Ok(goals)
}

/// One goal among so many states. The one error is Memory: out of memory.
pub(crate) fn only_goal(alloc: Global, states: u32, at: u32) -> Result<Vec<bool>, Memory>
    requires { at < states }
    ensures { IfOk result (λ goals. IsOnlyGoal states at goals.items) }
{
    let mut goals = match Vec::from_elem(alloc, false, states as usize) {
        Ok(goals) => goals,
        Err(_) => return Err(Memory),
    };
    goals[at as usize] = true;
    Ok(goals)
}
