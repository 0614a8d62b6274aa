//! The weak form of a table that is read by its marks.

ghost use Rattle.std.specs.Prelude.{◌≡◌, ◌*◌, ◌<◌, IfOk, IfErr, IfNone, IfSome};
ghost use Rattle.lash_model.specs.Tables.{letters, fracs};
ghost use Rattle.components.specs.Partings.{AreParts};
ghost use Rattle.marked_laws.specs.Weakening.{IsWeakForm, IsTorn};
ghost use Rattle.marked_laws.specs.TornTables.{AreTornWords};
ghost use Rattle.weak_forms.specs.Doubling.{AreDoubled};
ghost use Rattle.weak_forms.specs.Marking.{TellMarks, LiesTorn};
ghost use Rattle.weak_forms.specs.Words.{IsLeastClear, IsLeastMarked};
ghost use Rattle.weak_forms.specs.TornErrors.{TellsTorn, TellsOfWords};

use crate::arrivals::{Arrival, least_arrival};
use crate::doubling::doubled_rows;
use crate::loops::{least_clear, least_marked};
use crate::marks::{coloured_by_parts, marked_parts};
use crate::torn::torn_states;
use crate::{CoTable, WeakError};
use components::{Parts, components};
use digit_codes::Word;
use lash_io::Memory;
use packed_cells::Plain;
use std::alloc::Global;
use step_tables::Table;

/// The words of a torn table: the way to a torn state, and the two loops there.
#[derive(Drop)]
struct Shown {
    arrival: Arrival,
    accept: Vec<u32>,
    reject: Vec<u32>,
}

/// The least loop without a mark and the least one with a mark at a torn state. The one error is Memory: out of memory.
fn loops_at(
    alloc: Global,
    table: &Table<Plain>,
    rows: &[u32],
    state: u32,
) -> Result<(Vec<u32>, Vec<u32>), Memory>
    requires rows { AreDoubled table.now.table (2 * fracs table.now.table) 0 rows.now }
    requires state { state < fracs table.now.table }
    requires torn { LiesTorn table.now.table state }
    ensures clear { IfOk result (λ words. IsLeastClear table.now.table state words.0.items) }
    ensures marked { IfOk result (λ words. IsLeastMarked table.now.table state words.1.items) }
{
    let accept = match least_clear(alloc, table, rows, state) {
        Ok(accept) => accept,
        Err(Memory) => return Err(Memory),
    };
    match least_marked(alloc, table, rows, state) {
        Ok(reject) => Ok((accept, reject)),
        Err(Memory) => Err(Memory),
    }
}

/// The words of a table if it is torn. The one error is Memory: out of memory.
fn torn_words(
    alloc: Global,
    table: &Table<Plain>,
    parts: &Parts,
    marks: &[bool],
) -> Result<Option<Shown>, Memory>
    requires fractions { 0 < fracs table.now.table }
    requires parts { AreParts table.now.table.frac_rows (letters table.now.table) (fracs table.now.table) parts.now }
    requires marks { TellMarks table.now.table parts.now (fracs table.now.table) marks.now }
    ensures none { IfOk result (λ s. IfNone s (IsTorn table.now.table → ⊥)) }
    ensures some { IfOk result (λ s. IfSome s (λ x. AreTornWords table.now.table x.arrival.pair.start x.arrival.pair.letters.items x.arrival.stem.items x.accept.items x.reject.items)) }
{
    let rows = match doubled_rows(alloc, table) {
        Ok(rows) => rows,
        Err(Memory) => return Err(Memory),
    };
    let goals = match torn_states(alloc, table, parts, marks, rows.as_slice()) {
        Ok(goals) => goals,
        Err(Memory) => return Err(Memory),
    };
    let found = match least_arrival(alloc, table, goals.as_slice()) {
        Ok(found) => found,
        Err(Memory) => return Err(Memory),
    };
    let arrival = match found {
        Some(arrival) => arrival,
        None => return Ok(None),
    };
    match loops_at(alloc, table, rows.as_slice(), arrival.state) {
        Ok((accept, reject)) => Ok(Some(Shown {
            arrival,
            accept,
            reject,
        })),
        Err(Memory) => Err(Memory),
    }
}

/// The word of letters. The one error is Memory: out of memory.
fn word_of(alloc: Global, letters: &[u32]) -> Result<Word, Memory>
    ensures { IfOk result (λ w. w ≡ letters.now) }
{
    let mut word = Word::empty(alloc);
    for letter in letters {
        match word.push(*letter) {
            Ok(()) => {}
            Err(Memory) => return Err(Memory),
        }
    }
    Ok(word)
}

/// The error that tells these words, or that there was no memory for them.
fn told(alloc: Global, shown: &Shown) -> WeakError
    ensures { TellsOfWords shown.now.arrival.pair.start shown.now.arrival.pair.letters.items shown.now.arrival.stem.items shown.now.accept.items shown.now.reject.items result }
{
    let whole = match word_of(alloc, shown.arrival.pair.letters.as_slice()) {
        Ok(whole) => whole,
        Err(Memory) => return WeakError::Memory,
    };
    let stem = match word_of(alloc, shown.arrival.stem.as_slice()) {
        Ok(stem) => stem,
        Err(Memory) => return WeakError::Memory,
    };
    let accept = match word_of(alloc, shown.accept.as_slice()) {
        Ok(accept) => accept,
        Err(Memory) => return WeakError::Memory,
    };
    let reject = match word_of(alloc, shown.reject.as_slice()) {
        Ok(reject) => reject,
        Err(Memory) => return WeakError::Memory,
    };
    WeakError::NotWeak {
        sign: shown.arrival.pair.start,
        whole,
        stem,
        accept,
        reject,
    }
}

/// The table with the colours of its parts, no exactly if the part has a marked state, if no reached part has both a loop that meets a mark
/// and one that meets none. It then accepts as a weak automaton what the table accepts by its marks. Otherwise the error tells words that
/// show that no weak automaton has the set: the least way to such a part, and from there the least loop that meets no mark and the least
/// one that meets a mark.
pub fn weaken(alloc: Global, table: CoTable<Plain>) -> Result<Table<Plain>, WeakError>
    ensures form { IfOk result (λ u. IsWeakForm table.table u.table) }
    ensures not_torn { IfOk result (λ _. IsTorn table.table → ⊥) }
    ensures torn { IfErr result (λ e. TellsTorn table.table e) }
{
    let table = table.into_table();
    let parts = match components(alloc, &table) {
        Ok(parts) => parts,
        Err(Memory) => return Err(WeakError::Memory),
    };
    let marks = match marked_parts(alloc, &table, &parts) {
        Ok(marks) => marks,
        Err(Memory) => return Err(WeakError::Memory),
    };
    let found = match torn_words(alloc, &table, &parts, marks.as_slice()) {
        Ok(found) => found,
        Err(Memory) => return Err(WeakError::Memory),
    };
    match found {
        Some(words) => Err(told(alloc, &words)),
        None => Ok(coloured_by_parts(table, &parts, marks.as_slice())),
    }
}
