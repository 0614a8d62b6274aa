//! Cells of 32 bits: a list as it stands in memory. Own.

ghost use Rattle.std.specs.Prelude.{◌≡◌, ℕ, ◌^◌, List, replicate, IfOk};

use crate::Cells;
use lash_io::Memory;
use std::alloc::Global;
use std::marker::Model;

/// Cells of 32 bits each.
#[derive(Drop)]
pub struct Plain {
    cells: Vec<u32>,
}

impl Model for Plain {
    ghost Value = { List ℕ };

    ghost view = { λ p. p.cells.items };
}

impl Plain {
    /// So many zeros.
    pub fn new(alloc: Global, len: usize) -> Result<Plain, Memory>
        ensures { IfOk result (λ p. p ≡ replicate len 0) }
    {
        match vec![in alloc; 0; len] {
            Ok(cells) => Ok(Plain { cells }),
            Err(_) => Err(Memory),
        }
    }

    /// A list that is given away.
    pub fn of(cells: Vec<u32>) -> Plain
        ensures { result ≡ cells.items }
    {
        Plain { cells }
    }

    /// A copy of a list.
    pub fn copied(alloc: Global, list: &[u32]) -> Result<Plain, Memory>
        ensures { IfOk result (λ p. p ≡ list.now) }
    {
        match Vec::from_slice(alloc, list) {
            Ok(cells) => Ok(Plain { cells }),
            Err(_) => Err(Memory),
        }
    }
}

impl Cells for Plain {
    ghost items = { λ p. p };

    ghost limit = { λ _. 2 ^ 32 };

    fn len(&self) -> usize {
        self.cells.len()
    }

    fn bound(&self) -> u64 {
        1 << 32
    }

    fn get(&self, at: usize) -> u32 {
        self.cells[at]
    }

    fn lent(&self) -> Option<&[u32]> {
        Some(self.cells.as_slice())
    }

    fn set(&mut self, at: usize, value: u32) {
        self.cells[at] = value;
    }
}
