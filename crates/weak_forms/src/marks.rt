//! Which parts have marked states, and the colours by parts.

ghost use Rattle.std.specs.Prelude.{◌≡◌, ◌<◌, IfOk};
ghost use Rattle.lash_model.specs.Tables.{letters, fracs};
ghost use Rattle.components.specs.Partings.{AreParts};
ghost use Rattle.marked_laws.specs.Weakening.{IsWeakForm};
ghost use Rattle.weak_forms.specs.Marking.{TellMarks};

use components::Parts;
use lash_io::Memory;
use packed_cells::Plain;
use std::alloc::Global;
use step_tables::Table;

/// For each part whether it has a marked state. The one error is Memory: out of memory.
pub(crate) fn marked_parts(
    alloc: Global,
    table: &Table<Plain>,
    parts: &Parts,
) -> Result<Vec<bool>, Memory>
    requires { AreParts table.now.table.frac_rows (letters table.now.table) (fracs table.now.table) parts.now }
    ensures { IfOk result (λ marks. TellMarks table.now.table parts.now (fracs table.now.table) marks.items) }
{
    // A table is in range, which the number of its letters tells.
    let _letters = table.letters();
    let mut marks = match Vec::from_elem(alloc, false, parts.count() as usize) {
        Ok(marks) => marks,
        Err(_) => return Err(Memory),
    };
    for state in 0..table.fracs() {
        if !table.colour(state) {
            marks[parts.part_of(state) as usize] = true;
        }
    }
    Ok(marks)
}

/// The table with the colours of its parts: no exactly if the part has a marked state.
pub(crate) fn coloured_by_parts(table: Table<Plain>, parts: &Parts, marks: &[bool]) -> Table<Plain>
    requires parts { AreParts table.table.frac_rows (letters table.table) (fracs table.table) parts.now }
    requires marks { TellMarks table.table parts.now (fracs table.table) marks.now }
    ensures { IsWeakForm table.table result.table }
{
    let mut table = table;
    for state in 0..table.fracs() {
        let noted = marks[parts.part_of(state) as usize];
        table.set_colour(state, !noted);
    }
    table
}
