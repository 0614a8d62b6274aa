//! The least loops at a torn state: one that meets no mark, and one that meets a mark. Both are least ways of the doubled graph.

ghost use Rattle.std.specs.Prelude.{◌≡◌, ◌+◌, ◌*◌, ◌<◌, ◌∷◌, All, IfOk};
ghost use Rattle.lash_model.specs.Tables.{letters, fracs};
ghost use Rattle.weak_forms.specs.Marking.{LiesTorn};
ghost use Rattle.weak_forms.specs.Doubling.{AreDoubled};
ghost use Rattle.weak_forms.specs.Words.{AreTargets, IsLeastClear, IsLeastMarked};

use crate::doubling::copies;
use crate::finding::Drawn;
use crate::torn::only_goal;
use crate::ways::least_way;
use lash_io::Memory;
use packed_cells::Plain;
use std::alloc::Global;
use step_tables::Table;

/// The targets of a copy, by letters. The one error is Memory: out of memory.
fn targets_of(
    alloc: Global,
    table: &Table<Plain>,
    rows: &[u32],
    state: u32,
) -> Result<Vec<u32>, Memory>
    requires rows { AreDoubled table.now.table (2 * fracs table.now.table) 0 rows.now }
    requires state { state < fracs table.now.table }
    ensures targets { IfOk result (λ xs. AreTargets rows.now (letters table.now.table) state (letters table.now.table) xs.items) }
    ensures inside { IfOk result (λ xs. All (λ q. q < 2 * fracs table.now.table) xs.items) }
{
    let width = table.letters();
    let mut targets = Vec::new(alloc);
    for letter in 0..width {
        let target = rows[state as usize * width as usize + letter as usize];
        match targets.push(target) {
            Ok(()) => {}
            Err(_) => return Err(Memory),
        }
    }
    Ok(targets)
}

/// A word with a letter in front. The one error is Memory: out of memory.
fn with_front(alloc: Global, letter: u32, word: &[u32]) -> Result<Vec<u32>, Memory>
    ensures { IfOk result (λ w. w.items ≡ letter ∷ word.now) }
{
    let mut longer = Vec::new(alloc);
    match longer.push(letter) {
        Ok(()) => {}
        Err(_) => return Err(Memory),
    }
    match longer.extend_from_slice(word) {
        Ok(()) => Ok(longer),
        Err(_) => Err(Memory),
    }
}

/// The least loop without a mark at a torn state: the letter of one of its targets, and the least way from its targets back to it. The
/// one error is Memory: out of memory.
pub(crate) fn least_clear(
    alloc: Global,
    table: &Table<Plain>,
    rows: &[u32],
    state: u32,
) -> Result<Vec<u32>, Memory>
    requires rows { AreDoubled table.now.table (2 * fracs table.now.table) 0 rows.now }
    requires state { state < fracs table.now.table }
    requires torn { LiesTorn table.now.table state }
    ensures { IfOk result (λ w. IsLeastClear table.now.table state w.items) }
{
    let targets = match targets_of(alloc, table, rows, state) {
        Ok(targets) => targets,
        Err(Memory) => return Err(Memory),
    };
    let goals = match only_goal(alloc, copies(table), state) {
        Ok(goals) => goals,
        Err(Memory) => return Err(Memory),
    };
    let graph = Drawn::new(targets.as_slice(), rows, table.letters(), copies(table));
    let found = match least_way(alloc, &graph, goals.as_slice()) {
        Ok(found) => found,
        Err(Memory) => return Err(Memory),
    };
    let way = match found {
        Some(way) => way,
        None => unreachable!(),
    };
    match with_front(alloc, way.start, way.letters.as_slice()) {
        Ok(word) => Ok(word),
        Err(Memory) => Err(Memory),
    }
}

/// The least loop with a mark at a torn state: the least way from its first copy to its second one. The one error is Memory: out of memory.
pub(crate) fn least_marked(
    alloc: Global,
    table: &Table<Plain>,
    rows: &[u32],
    state: u32,
) -> Result<Vec<u32>, Memory>
    requires rows { AreDoubled table.now.table (2 * fracs table.now.table) 0 rows.now }
    requires state { state < fracs table.now.table }
    requires torn { LiesTorn table.now.table state }
    ensures { IfOk result (λ w. IsLeastMarked table.now.table state w.items) }
{
    let all = copies(table);
    let goals = match only_goal(alloc, all, state + table.fracs()) {
        Ok(goals) => goals,
        Err(Memory) => return Err(Memory),
    };
    let starts = [state];
    let graph = Drawn::new(starts.as_slice(), rows, table.letters(), all);
    let found = match least_way(alloc, &graph, goals.as_slice()) {
        Ok(found) => found,
        Err(Memory) => return Err(Memory),
    };
    match found {
        Some(way) => Ok(way.letters),
        None => unreachable!(),
    }
}
