//! Vectors of integers that an iteration adds.

ghost use Rattle.std.specs.Prelude.{◌≡◌, ◌≤◌, ◌<◌, ℕ, IfOk, length, pos, replicate, slice_set};
ghost use Rattle.matrix_powers.specs.Orbits.{at_row};

use lash_io::Memory;
use std::alloc::Global;
use std::marker::Model;

/// A vector of one to four integers.
#[derive(Debug, Drop)]
pub struct Shift {
    entries: Vec<i128>,
}

impl Model for Shift {
    ghost use Rattle.std.specs.Prelude.{List, ℤ, length, ◌≤◌};

    ghost Value = { List ℤ };

    ghost view = { λ s. s.entries.items };

    ghost invariant = { λ s. (1 ≤ length s.entries.items) × (length s.entries.items ≤ 4) };
}

impl Shift {
    /// The vector of zeros. Condition: one to four rows.
    ///
    /// # Errors
    /// `Memory` if the program is out of memory.
    pub fn zero(alloc: Global, side: u32) -> Result<Shift, Memory>
        requires some { 1 ≤ side }
        requires few { side ≤ 4 }
        ensures { IfOk result (λ s. s ≡ replicate side (pos 0)) }
    {
        match vec![in alloc; 0; side as usize] {
            Ok(entries) => Ok(Shift { entries }),
            Err(_) => Err(Memory),
        }
    }

    /// The vector of these entries, of which there are one to four.
    pub fn of_entries(entries: Vec<i128>) -> Shift
        requires some { 1 ≤ length entries.items }
        requires few { length entries.items ≤ 4 }
        ensures { result ≡ entries.items }
    {
        Shift { entries }
    }

    /// The number of rows, from 1 to 4.
    pub fn side(&self) -> u32
        ensures value { result ≡ length self.now }
        ensures some { 1 ≤ length self.now }
        ensures few { length self.now ≤ 4 }
    {
        self.entries.len() as u32
    }

    /// The entry at a row. Condition: the row is below the number of rows.
    pub fn get(&self, row: u32) -> i128
        requires { row < length self.now }
        ensures { result ≡ at_row self.now row }
    {
        self.entries[row as usize]
    }

    /// Puts an entry at a row. Condition: the row is below the number of rows.
    pub fn set(&mut self, row: u32, entry: i128)
        requires { row < length self.old }
        ensures { self.new ≡ slice_set self.old row entry }
    {
        self.entries[row as usize] = entry;
    }

    /// The same vector once more.
    ///
    /// # Errors
    /// `Memory` if the program is out of memory.
    pub fn copied(&self, alloc: Global) -> Result<Shift, Memory>
        ensures { IfOk result (λ s. s ≡ self.now) }
    {
        match Vec::from_slice(alloc, &self.entries) {
            Ok(entries) => Ok(Shift { entries }),
            Err(_) => Err(Memory),
        }
    }
}
