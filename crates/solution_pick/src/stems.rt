//! The least stem and the least cycle, each by one search over fraction states. What is explored is numbered by least paths, so the
//! first position of a kind has the least path.

ghost use Rattle.std.specs.Prelude.{◌≡◌, ◌<◌, ◌≤◌, ◌∷◌, ℕ, true, false, length, IfOk, IfNone, IfSome, All};
ghost use Rattle.graph_laws.specs.Walks.{go};
ghost use Rattle.graph_laws.specs.Exploring.{IsExplored};
ghost use Rattle.lash_model.specs.Tables.{letters, fracs};
ghost use Rattle.part_laws.specs.Graphs.{IsLooping};
ghost use Rattle.components.specs.Partings.{AreParts};
ghost use Rattle.least_paths.specs.Searches.{row_steps, HaveStates, state_at};
ghost use Rattle.solution_pick.specs.FractionSolutions.{IsYesLoop, LeadsNowhere, IsLeastStem, IsLeastCycle};
ghost use Rattle.solution_pick.specs.FractionSearches.{frac_net, IsFirstYesLoop, AreTargets};

use components::{Parts, frac_rows_of, parts_of};
use lash_io::Memory;
use least_paths::{Search, Trail, explored_rows, first_place, least_path, place};
use packed_cells::Packed;
use std::alloc::Global;
use step_tables::{Explored, Table};

/// The fraction states that are reached from some of them, numbered by their least paths. The one error is Memory: out of memory.
fn explored_from(
    alloc: Global,
    table: &Table<Packed>,
    rows: &[u32],
    starts: &[u32],
) -> Result<Explored, Memory>
    requires rows { rows.now ≡ table.now.table.frac_rows }
    requires inside { All (λ q. q < fracs table.now.table) starts.now }
    requires few { length starts.now ≤ 4096 }
    ensures { IfOk result (λ k. IsExplored (row_steps (frac_net table.now.table starts.now)) 16777216 k) }
{
    explored_rows(alloc, rows, table.letters(), table.fracs(), starts)
}

/// Whether a fraction state lies on a loop and has colour yes.
fn is_yes_loop(table: &Table<Packed>, parts: &Parts, state: u32) -> bool
    requires parts { AreParts table.now.table.frac_rows (letters table.now.table) (fracs table.now.table) parts.now }
    requires state { state < fracs table.now.table }
    ensures yes { result ≡ true → IsYesLoop table.now.table state }
    ensures no { result ≡ false → IsYesLoop table.now.table state → ⊥ }
{
    if !table.colour(state) {
        return false;
    }
    parts.loops(parts.part_of(state))
}

/// The first position of a looping state of colour yes. None if there is none.
fn first_yes_loop(table: &Table<Packed>, parts: &Parts, found: &Explored) -> Option<u32>
    requires parts { AreParts table.now.table.frac_rows (letters table.now.table) (fracs table.now.table) parts.now }
    requires states { HaveStates (fracs table.now.table) found.now }
    ensures none { IfNone result ((i : ℕ) → i < length found.now.keys → IsYesLoop table.now.table (state_at found.now i) → ⊥) }
    ensures some { IfSome result (IsFirstYesLoop table.now.table found.now) }
{
    for at in 0..found.len() {
        if is_yes_loop(table, parts, place(table.fracs(), found, at)) {
            return Some(at);
        }
    }
    None
}

/// The least word from a fraction state to a looping one of colour yes. None if no word leads there, which is so exactly if nothing is
/// accepted from the state. The one error is Memory: out of memory.
fn least_stem(
    alloc: Global,
    table: &Table<Packed>,
    rows: &[u32],
    parts: &Parts,
    state: u32,
) -> Result<Option<Vec<u32>>, Memory>
    requires rows { rows.now ≡ table.now.table.frac_rows }
    requires parts { AreParts table.now.table.frac_rows (letters table.now.table) (fracs table.now.table) parts.now }
    requires state { state < fracs table.now.table }
    ensures none { IfOk result (λ found. IfNone found (LeadsNowhere table.now.table state)) }
    ensures least { IfOk result (λ found. IfSome found (λ w. IsLeastStem table.now.table state w.items)) }
{
    let found = match explored_from(alloc, table, rows, &[state]) {
        Ok(found) => found,
        Err(Memory) => return Err(Memory),
    };
    let at = match first_yes_loop(table, parts, &found) {
        Some(at) => at,
        None => return Ok(None),
    };
    match least_path(alloc, &Search::new(&found, 1, table.letters()), at) {
        Ok(trail) => Ok(Some(trail.letters)),
        Err(Memory) => Err(Memory),
    }
}

/// The targets of a fraction state, by letters.
fn targets_of(alloc: Global, table: &Table<Packed>, state: u32) -> Result<Vec<u32>, Memory>
    requires { state < fracs table.now.table }
    ensures targets { IfOk result (λ xs. AreTargets table.now.table state (letters table.now.table) xs.items) }
    ensures inside { IfOk result (λ xs. All (λ q. q < fracs table.now.table) xs.items) }
{
    let mut targets = Vec::new(alloc);
    for letter in 0..table.letters() {
        match targets.push(table.frac_step(state, letter)) {
            Ok(()) => {}
            Err(_) => return Err(Memory),
        }
    }
    Ok(targets)
}

/// A word with a letter in front.
fn with_front(alloc: Global, letter: u32, word: &[u32]) -> Result<Vec<u32>, Memory>
    ensures { IfOk result (λ w. w.items ≡ letter ∷ word.now) }
{
    let mut longer = Vec::new(alloc);
    match longer.push(letter) {
        Ok(()) => {}
        Err(_) => return Err(Memory),
    }
    match longer.extend_from_slice(word) {
        Ok(()) => Ok(longer),
        Err(_) => Err(Memory),
    }
}

/// The least word that is not empty and leads from a looping fraction state back to it: the letter of one of its targets, and the least
/// path from its targets to it. The one error is Memory: out of memory.
fn least_cycle(
    alloc: Global,
    table: &Table<Packed>,
    rows: &[u32],
    state: u32,
) -> Result<Vec<u32>, Memory>
    requires rows { rows.now ≡ table.now.table.frac_rows }
    requires state { state < fracs table.now.table }
    requires looping { IsLooping table.now.table.frac_rows (letters table.now.table) state }
    ensures { IfOk result (λ w. IsLeastCycle table.now.table state w.items) }
{
    let width = table.letters();
    let targets = match targets_of(alloc, table, state) {
        Ok(targets) => targets,
        Err(Memory) => return Err(Memory),
    };
    let found = match explored_from(alloc, table, rows, targets.as_slice()) {
        Ok(found) => found,
        Err(Memory) => return Err(Memory),
    };
    let at = match first_place(table.fracs(), &found, state) {
        Some(at) => at,
        None => unreachable!(),
    };
    let Trail { start, letters } = match least_path(alloc, &Search::new(&found, width, width), at) {
        Ok(trail) => trail,
        Err(Memory) => return Err(Memory),
    };
    match with_front(alloc, start, letters.as_slice()) {
        Ok(cycle) => Ok(cycle),
        Err(Memory) => Err(Memory),
    }
}

/// A stem and a cycle.
#[derive(Drop)]
pub(crate) struct Ending {
    pub stem: Vec<u32>,
    pub cycle: Vec<u32>,
}

/// The least stem from a fraction state, and the least cycle from its end. None if no word leads to a looping state of colour yes. The
/// one error is Memory: out of memory.
pub(crate) fn least_ending(
    alloc: Global,
    table: &Table<Packed>,
    state: u32,
) -> Result<Option<Ending>, Memory>
    requires { state < fracs table.now.table }
    ensures none { IfOk result (λ found. IfNone found (LeadsNowhere table.now.table state)) }
    ensures stem { IfOk result (λ found. IfSome found (λ e. IsLeastStem table.now.table state e.stem.items)) }
    ensures cycle { IfOk result (λ found. IfSome found (λ e.
        IsLeastCycle table.now.table (go table.now.table.frac_rows (letters table.now.table) state e.stem.items) e.cycle.items)) }
{
    let rows = match frac_rows_of(alloc, table) {
        Ok(rows) => rows,
        Err(Memory) => return Err(Memory),
    };
    let rows = rows.as_slice();
    let parts = match parts_of(alloc, rows, table.letters(), table.fracs()) {
        Ok(parts) => parts,
        Err(Memory) => return Err(Memory),
    };
    let found = match least_stem(alloc, table, rows, &parts, state) {
        Ok(found) => found,
        Err(Memory) => return Err(Memory),
    };
    let stem = match found {
        Some(stem) => stem,
        None => return Ok(None),
    };
    match least_cycle(alloc, table, rows, table.run_frac(state, stem.as_slice())) {
        Ok(cycle) => Ok(Some(Ending { stem, cycle })),
        Err(Memory) => Err(Memory),
    }
}
