//! The parts of a graph's states. A part has the states that reach each other, and it loops if a walk of one letter or more leads from
//! a state of it back to that state.

ghost use Rattle.std.specs.Prelude.{◌≡◌, ◌*◌, ◌<◌, ◌^◌, false, length, slice_index, All, IfOk};
ghost use Rattle.std.specs.List.{slice_index_or};
ghost use Rattle.components.specs.Partings.{AreParts, TellsInner, MarksLoops};

use crate::search::split;
use lash_io::Memory;
use std::alloc::Global;
use std::marker::Model;

/// The number of each state's part, for each part whether it loops, and the states in the order of their parts. The numbers are those
/// below `count()`, and no step leads to a part of a greater number.
#[derive(Drop)]
pub struct Parts {
    numbers: Vec<u32>,
    looping: Vec<bool>,
    order: Vec<u32>,
    count: u32,
}

impl Model for Parts {
    ghost use Rattle.components.specs.Partings.{Parted};
    ghost use Rattle.std.specs.Prelude.{◌≡◌, length};

    ghost Value = { Parted };

    ghost view = { λ p. record { numbers = p.numbers.items; looping = p.looping.items; order = p.order.items } };

    ghost invariant = { λ p. length p.looping.items ≡ p.count };
}

impl Parts {
    /// The number of a state's part, which is below `count()`.
    pub fn part_of(&self, state: u32) -> u32
        requires { state < length self.now.numbers }
        ensures { result ≡ slice_index self.now.numbers state }
    {
        self.numbers[state as usize]
    }

    /// All states, in the order of the numbers of their parts.
    pub fn states(&self) -> &[u32]
        ensures { result.now ≡ self.now.order }
    {
        self.order.as_slice()
    }

    /// The number of parts.
    pub fn count(&self) -> u32
        ensures { result ≡ length self.now.looping }
    {
        self.count
    }

    /// Whether the states of a part lie on loops.
    pub fn loops(&self, part: u32) -> bool
        requires { part < length self.now.looping }
        ensures { result ≡ slice_index_or self.now.looping part false }
    {
        self.looping[part as usize]
    }
}

// Whether a letter leads from a state to a state of the same number.
fn steps_inside(rows: &[u32], letters: u32, numbers: &[u32], state: u32) -> bool
    requires rows { length rows.now ≡ length numbers.now * letters }
    requires targets { All (λ q. q < length numbers.now) rows.now }
    requires few { length numbers.now < 2 ^ 32 }
    requires state { state < length numbers.now }
    ensures { TellsInner rows.now letters numbers.now state letters result }
{
    let number = numbers[state as usize];
    for letter in 0..letters {
        let target = rows[state as usize * letters as usize + letter as usize];
        if numbers[target as usize] == number {
            return true;
        }
    }
    false
}

// For each number whether a letter leads from a state of this number to another, or itself, of this number.
fn loops_of(
    alloc: Global,
    rows: &[u32],
    letters: u32,
    numbers: &[u32],
    count: u32,
) -> Result<Vec<bool>, Memory>
    requires rows { length rows.now ≡ length numbers.now * letters }
    requires targets { All (λ q. q < length numbers.now) rows.now }
    requires few { length numbers.now < 2 ^ 32 }
    requires numbers { All (λ k. k < count) numbers.now }
    ensures { IfOk result (λ looping. MarksLoops rows.now letters numbers.now count (length numbers.now) looping.items) }
{
    let mut looping = match Vec::from_elem(alloc, false, count as usize) {
        Ok(looping) => looping,
        Err(_) => return Err(Memory),
    };
    for state in 0..numbers.len() as u32 {
        if steps_inside(rows, letters, numbers, state) {
            looping[numbers[state as usize] as usize] = true;
        }
    }
    Ok(looping)
}

/// The parts of a graph's states (strongly connected components, by the path-based method of Gabow). The rows have a target for each
/// letter, row after row, with all targets below `states`; `letters` and `states` may be 0. Two states have one number exactly if each
/// reaches the other, no step leads to a greater number, and a part loops exactly if its states lie on loops. The one error is Memory:
/// out of memory.
pub fn parts_of(alloc: Global, rows: &[u32], letters: u32, states: u32) -> Result<Parts, Memory>
    requires rows { length rows.now ≡ states * letters }
    requires targets { All (λ q. q < states) rows.now }
    ensures { IfOk result (λ p. AreParts rows.now letters states p) }
{
    let (count, numbers, order) = split(alloc, rows, letters, states)?;
    let looping = loops_of(alloc, rows, letters, numbers.as_slice(), count)?;
    Ok(Parts {
        numbers,
        looping,
        order,
        count,
    })
}
