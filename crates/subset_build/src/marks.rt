//! Marks on states, and the list of the marked ones.

ghost use Rattle.std.specs.Prelude.{◌≡◌, ◌<◌, ◌≤◌, length, slice_index, OnOk, IfOk};
ghost use Rattle.subset_build.specs.Closing.{IsMarking, none_marked, met_state, marked_states};

use lash_io::Memory;
use std::alloc::Global;
use std::marker::Model;

/// A mark for each state, and the marked states in the order in which they were found.
#[derive(Drop)]
pub struct Marks {
    marked: Vec<bool>,
    states: Vec<u32>,
}

impl Model for Marks {
    ghost use Rattle.subset_build.specs.Closing.{Marking, IsMarking};

    ghost Value = { Marking };

    ghost view = { λ m. record { marked = m.marked.items; states = m.states.items } };

    ghost invariant = { λ m. IsMarking (record { marked = m.marked.items; states = m.states.items }) };
}

impl Marks {
    /// Of so many states none is marked.
    pub fn new(alloc: Global, states: u32) -> Result<Self, Memory>
        ensures { IfOk result (λ m. m ≡ none_marked states) }
    {
        match vec![in alloc; false; states as usize] {
            Ok(marked) => Ok(Marks {
                marked,
                states: Vec::new(alloc),
            }),
            Err(_) => Err(Memory),
        }
    }

    /// Takes all marks away.
    pub fn clear(&mut self)
        ensures { self.new ≡ none_marked (length self.old.marked) }
    {
        self.marked.fill(false);
        self.states.clear();
    }

    /// Marks a state, where it is not marked. Where there is no memory, nothing is changed.
    pub fn meet(&mut self, state: u32) -> Result<(), Memory>
        requires { state < length self.old.marked }
        ensures met { OnOk result (self.new ≡ met_state self.old state) }
        ensures count { length self.new.marked ≡ length self.old.marked }
    {
        if self.marked[state as usize] {
            return Ok(());
        }
        match self.states.push(state) {
            Ok(()) => {}
            Err(_) => return Err(Memory),
        }
        self.marked[state as usize] = true;
        Ok(())
    }

    /// The number of marked states.
    pub fn len(&self) -> usize
        ensures value { result ≡ length self.now.states }
        ensures few { result ≤ length self.now.marked }
    {
        self.states.len()
    }

    /// The state that was found at a place of the order.
    pub fn state(&self, at: usize) -> u32
        requires { at < length self.now.states }
        ensures value { result ≡ slice_index self.now.states at }
        ensures below { result < length self.now.marked }
    {
        self.states[at]
    }

    /// The marked states, rising. The marks are for so many states.
    pub fn rising(&self, alloc: Global, states: u32) -> Result<Vec<u32>, Memory>
        requires { length self.now.marked ≡ states }
        ensures rising { IfOk result (λ v. v.items ≡ marked_states self.now) }
        ensures marking { IsMarking self.now }
    {
        let mut rising = Vec::new(alloc);
        for state in 0..states {
            if self.marked[state as usize] {
                match rising.push(state) {
                    Ok(()) => {}
                    Err(_) => return Err(Memory),
                }
            }
        }
        Ok(rising)
    }
}
