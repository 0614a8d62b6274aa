//! The states of a graph that is given by flat rows as a machine, explored breadth first from any of them. Costs a look-up for each state
//! and letter.

ghost use Rattle.std.specs.Prelude.{◌≡◌, ◌<◌, ◌≤◌, ◌+◌, ◌*◌, ◌^◌, ◌∷◌, [], All, length, slice_index, IfOk, OnOk};
ghost use Rattle.graph_laws.specs.Exploring.{IsExplored};
ghost use Rattle.least_paths.specs.Nets.{target};
ghost use Rattle.least_paths.specs.Searches.{IsSearch, row_steps};

use lash_io::Memory;
use std::alloc::Global;
use std::marker::Model;
use step_tables::{ExploreError, Explored, Key, Machine, explore};

/// The most cells that a graph has.
const MOST_CELLS: u64 = 16_777_216;

/// Flat rows of targets, the number of letters and of states, and the states in which a search begins.
#[derive(Drop)]
pub struct RowSteps<'a> {
    rows: &'a [u32],
    width: u32,
    states: u32,
    starts: &'a [u32],
}

impl<'a> Model for RowSteps<'a> {
    ghost use Rattle.least_paths.specs.Nets.{Net};
    ghost use Rattle.least_paths.specs.Searches.{IsSearch};

    ghost Value = { Net };

    ghost view = { λ m. record { starts = m.starts.now; rows = m.rows.now; width = m.width; states = m.states } };

    ghost invariant = { λ m. IsSearch (record { starts = m.starts.now; rows = m.rows.now; width = m.width; states = m.states }) };
}

/// Writes the key of a state.
fn write_state(state: u32, into: &mut Key) -> Result<(), Memory>
    ensures { OnOk result (into.new.items ≡ state ∷ []) }
{
    if into.len() == 1 {
        into.as_mut_slice()[0] = state;
        return Ok(());
    }
    into.clear();
    match into.extend_from_slice(&[state]) {
        Ok(()) => Ok(()),
        Err(_) => Err(Memory),
    }
}

/// Where a state's entry for a letter stands.
fn entry_at(state: u32, width: u32, letter: u32) -> usize
    requires { letter < width }
    ensures { result ≡ state * width + letter }
{
    state as usize * width as usize + letter as usize
}

impl<'a> RowSteps<'a> {
    fn new(rows: &'a [u32], width: u32, states: u32, starts: &'a [u32]) -> Self
        requires count { length rows.now ≡ states * width }
        requires targets { All (λ q. q < states) rows.now }
        requires inside { All (λ q. q < states) starts.now }
        requires few { length starts.now < 2 ^ 32 }
        requires cells { states * (width + 1) ≤ 16777216 }
        ensures value { result ≡ record { starts = starts.now; rows = rows.now; width = width; states = states } }
        ensures search { IsSearch result }
    {
        RowSteps {
            rows,
            width,
            states,
            starts,
        }
    }

    /// A start.
    fn first(&self, at: usize) -> u32
        requires { at < length self.now.starts }
        ensures value { result ≡ slice_index self.now.starts at }
        ensures below { result < self.now.states }
    {
        let starts = self.starts;
        starts[at]
    }

    /// The state after a state and a letter.
    fn target(&self, state: u32, letter: u32) -> u32
        requires state { state < self.now.states }
        requires letter { letter < self.now.width }
        ensures value { result ≡ target self.now state letter }
        ensures below { result < self.now.states }
    {
        let rows = self.rows;
        rows[entry_at(state, self.width, letter)]
    }
}

impl Machine for RowSteps<'_> {
    ghost use Rattle.least_paths.specs.Searches.{row_steps};

    ghost meaning = { row_steps };

    fn letters(&self) -> u32 {
        self.width
    }

    fn starts(&self) -> usize {
        self.starts.len()
    }

    fn start(&mut self, at: usize, into: &mut Key) -> Result<(), Memory> {
        write_state(self.first(at), into)
    }

    fn step(&mut self, from: &Key, letter: u32, into: &mut Key) -> Result<(), Memory> {
        write_state(self.target(from.as_slice()[0], letter), into)
    }

    fn numbers(&self) -> u64 {
        u64::from(self.states)
    }

    fn radix(&self) -> u32 {
        0
    }

    fn number_behind(&self, from: &Key, letter: u32) -> u64 {
        u64::from(self.target(from.as_slice()[0], letter))
    }

    fn is_behind(&self, from: &Key, letter: u32, key: &[u32]) -> bool {
        key.len() == 1 && key[0] == self.target(from.as_slice()[0], letter)
    }

    fn weight(&self, _key: &Key) -> u64 {
        0
    }
}

/// The states that are reached from some of them, numbered by their least paths. The rows have a target for each letter, row after row,
/// and the cells, one more than the letters for each state, are at most 16,777,216. The one error is Memory: out of memory.
pub fn explored_rows(
    alloc: Global,
    rows: &[u32],
    letters: u32,
    states: u32,
    starts: &[u32],
) -> Result<Explored, Memory>
    requires rows { length rows.now ≡ states * letters }
    requires targets { All (λ q. q < states) rows.now }
    requires inside { All (λ q. q < states) starts.now }
    requires few { length starts.now < 2 ^ 32 }
    requires cells { states * (letters + 1) ≤ 16777216 }
    ensures { IfOk result (λ k.
        IsExplored (row_steps (record { starts = starts.now; rows = rows.now; width = letters; states = states })) 16777216 k) }
{
    match explore(
        alloc,
        &mut RowSteps::new(rows, letters, states, starts),
        MOST_CELLS,
    ) {
        Ok(found) => Ok(found),
        Err(ExploreError::Memory) => Err(Memory),
        Err(ExploreError::Heavy) => unreachable!(),
    }
}
