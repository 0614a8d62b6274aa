//! What an exploration finds, on its way and at its end.

ghost use Rattle.std.specs.Prelude.{◌≡◌, ◌+◌, ◌*◌, ◌<◌, ◌≤◌, List, ℕ, [], length, slice_get, slice_index, Some};
ghost use Rattle.step_tables.specs.Gathering.{IsLinked};

use crate::entries::entry_at;
use crate::found::Found;
use std::alloc::Global;
use std::marker::Model;

/// An exploration on its way: the keys that were found, the positions of the starts, and row by row the positions that keys and
/// letters lead to.
#[derive(Drop)]
pub struct Search {
    pub(crate) letters: u32,
    pub(crate) found: Found,
    pub(crate) starts: Vec<u32>,
    pub(crate) rows: Vec<u32>,
}

impl Model for Search {
    ghost use Rattle.graph_laws.specs.Exploring.{KeyTable};

    ghost Value = { KeyTable };

    ghost view = { λ s. record { width = s.letters; keys = s.found.keys; cells = s.found.cells; starts = s.starts.items; rows = s.rows.items } };
}

impl Search {
    /// A search over so many letters that goes on from keys without starts and rows.
    pub fn of(alloc: Global, letters: u32, found: Found) -> Self
        ensures { result ≡ record { width = letters; keys = found.keys; cells = found.cells; starts = []; rows = [] } }
    {
        Search {
            letters,
            found,
            starts: Vec::new(alloc),
            rows: Vec::new(alloc),
        }
    }
}

/// What was explored: the keys, the positions of the starts, for each key and letter the position of the key behind them, and the
/// sum of the cells. A position is a number below that of keys.
#[derive(Drop)]
pub struct Explored {
    search: Search,
}

impl Model for Explored {
    ghost use Rattle.graph_laws.specs.Exploring.{KeyTable};
    ghost use Rattle.step_tables.specs.Gathering.{IsLinked};

    ghost Value = { KeyTable };

    ghost view = { λ e. e.search };

    ghost invariant = { λ e. IsLinked e.search };
}

impl Explored {
    /// The result of a search that has followed every key.
    pub(crate) fn new(search: Search) -> Self
        requires { IsLinked search }
        ensures { result ≡ search }
    {
        Explored { search }
    }

    /// The number of keys.
    pub fn len(&self) -> u32
        ensures { result ≡ length self.now.keys }
    {
        self.search.found.len() as u32
    }

    /// The key at a position.
    pub fn key(&self, at: u32) -> &[u32]
        requires { at < length self.now.keys }
        ensures { slice_get self.now.keys at ≡ Some result.now }
    {
        self.search.found.key(at as usize).as_slice()
    }

    /// The position of the key behind a key and a letter.
    pub fn target(&self, at: u32, letter: u32) -> u32
        requires at { at < length self.now.keys }
        requires letter { letter < self.now.width }
        ensures value { result ≡ slice_index self.now.rows (at * self.now.width + letter) }
        ensures below { result < length self.now.keys }
    {
        self.search.rows[entry_at(at, self.search.letters, letter)]
    }

    /// The position of a start.
    pub fn start(&self, at: u32) -> u32
        requires { at < length self.now.starts }
        ensures value { result ≡ slice_index self.now.starts at }
        ensures below { result < length self.now.keys }
    {
        self.search.starts[at as usize]
    }

    /// The sum of the cells of all keys.
    pub fn cells(&self) -> u64
        ensures { result ≡ self.now.cells }
    {
        self.search.found.cells()
    }

    /// The positions of the starts.
    pub fn starts(&self) -> &[u32]
        ensures { result.now ≡ self.now.starts }
    {
        self.search.starts.as_slice()
    }

    /// The rows of positions, one entry for each letter, one row behind another.
    pub fn rows(&self) -> &[u32]
        ensures value { result.now ≡ self.now.rows }
        ensures linked { IsLinked self.now }
    {
        self.search.rows.as_slice()
    }
}
