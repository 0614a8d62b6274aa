//! What a search walks over: states with starts and steps. It is the integer part of a table, or what was explored.

ghost use Rattle.std.specs.Prelude.{◌≡◌, ◌^◌, ◌<◌, length, slice_index};
ghost use Rattle.least_paths.specs.Nets.{Net, target};

use packed_cells::Cells;
use std::marker::Model;
use step_tables::{Explored, Table};

/// States with starts and steps.
pub trait Graph {
    ghost net: { Self → Net };

    /// The number of starts.
    fn start_count(&self) -> u32
        ensures { result ≡ length (net self.now).starts };

    /// The number of letters.
    fn width(&self) -> u32
        ensures { result ≡ (net self.now).width };

    /// The number of states.
    fn states(&self) -> u32
        ensures { result ≡ (net self.now).states };

    /// A start.
    fn begin(&self, at: u32) -> u32
        requires { at < length (net self.now).starts }
        ensures { result ≡ slice_index (net self.now).starts at };

    /// The state after a state and a letter.
    fn follow(&self, state: u32, letter: u32) -> u32
        requires state { state < (net self.now).states }
        requires letter { letter < (net self.now).width }
        ensures { result ≡ target (net self.now) state letter };
}

/// The number of sign vectors.
fn sign_count<C: Cells>(table: &Table<C>) -> u32
    ensures { result ≡ length table.now.table.roots }
{
    // They are no more than the letters, since the base is at least 2.
    let letters = table.letters();
    let count = 2u32.pow(table.tracks());
    prove!(count <= letters);
    count
}

impl<C: Cells> Graph for Table<C> {
    ghost use Rattle.least_paths.specs.Nets.{int_net};

    ghost net = { λ k. int_net k.table };

    fn start_count(&self) -> u32 {
        sign_count(self)
    }

    fn width(&self) -> u32 {
        self.letters()
    }

    fn states(&self) -> u32 {
        self.ints()
    }

    fn begin(&self, at: u32) -> u32 {
        // A table is in range, which the number of its letters tells.
        let _letters = self.letters();
        self.root(at)
    }

    fn follow(&self, state: u32, letter: u32) -> u32 {
        self.int_step(state, letter)
    }
}

/// What was explored, with the numbers of its starts and its letters.
#[derive(Drop)]
pub struct Search<'a> {
    starts: u32,
    width: u32,
    found: &'a Explored,
}

impl<'a> Model for Search<'a> {
    ghost use Rattle.std.specs.Prelude.{◌≡◌, length};
    ghost use Rattle.graph_laws.specs.Exploring.{KeyTable};

    ghost Value = { KeyTable };

    ghost view = { λ s. s.found.now };

    ghost invariant = { λ s. (s.starts ≡ length s.found.now.starts) × (s.width ≡ s.found.now.width) };
}

impl<'a> Search<'a> {
    /// What was explored from so many starts by so many letters.
    pub fn new(found: &'a Explored, starts: u32, width: u32) -> Self
        requires starts { starts ≡ length found.now.starts }
        requires width { width ≡ found.now.width }
        ensures { result ≡ found.now }
    {
        Search {
            starts,
            width,
            found,
        }
    }
}

impl Graph for Search<'_> {
    ghost use Rattle.least_paths.specs.Nets.{found_net};

    ghost net = { found_net };

    fn start_count(&self) -> u32 {
        self.starts
    }

    fn width(&self) -> u32 {
        self.width
    }

    fn states(&self) -> u32 {
        self.found.len()
    }

    fn begin(&self, at: u32) -> u32 {
        self.found.start(at)
    }

    fn follow(&self, state: u32, letter: u32) -> u32 {
        self.found.target(state, letter)
    }
}
