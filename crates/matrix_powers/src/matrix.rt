//! Square matrices of integers.

ghost use Rattle.std.specs.Prelude.{◌≡◌, ◌≤◌, ◌<◌, ◌+◌, ◌*◌, ◌^◌, ℕ, IfOk, IsTrue, IsFalse, length, nat_eq, nat_le, slice_set, unsigned_abs};
ghost use Rattle.matrix_powers.specs.Matrices.{IsSquare, entry, one_where};
ghost use Rattle.matrix_powers.specs.Products.{IsSmall, HaveSameEntries};

use lash_io::Memory;
use std::alloc::Global;
use std::marker::Model;

/// A square matrix of one to four rows. Its entries are kept row by row.
#[derive(Debug, Drop)]
pub struct Matrix {
    side: u32,
    entries: Vec<i128>,
}

impl Model for Matrix {
    ghost use Rattle.matrix_powers.specs.Matrices.{Square, IsSquare};

    ghost Value = { Square };

    ghost view = { λ m. record { side = m.side; entries = m.entries.items } };

    ghost invariant = { λ m. IsSquare (record { side = m.side; entries = m.entries.items }) };
}

impl Matrix {
    /// The matrix with 1 if row and column are the same, and 0 elsewhere. Condition: one to four rows.
    ///
    /// # Errors
    /// `Memory` if the program is out of memory.
    pub fn identity(alloc: Global, side: u32) -> Result<Matrix, Memory>
        requires some { 1 ≤ side }
        requires few { side ≤ 4 }
        ensures side { IfOk result (λ m. m.side ≡ side) }
        ensures entries { IfOk result (λ m. (row column : ℕ) → row < side → column < side → entry m row column ≡ one_where (nat_eq row column)) }
    {
        let mut entries = Vec::new(alloc);
        for at in 0..side * side {
            match entries.push(identity_entry(at / side, at % side)) {
                Ok(()) => {}
                Err(_) => return Err(Memory),
            }
        }
        Ok(Matrix { side, entries })
    }

    /// The matrix of these entries, row by row. Conditions: there are one to four rows, each of as many entries.
    pub fn of_rows(side: u32, entries: Vec<i128>) -> Matrix
        requires some { 1 ≤ side }
        requires few { side ≤ 4 }
        requires whole { length entries.items ≡ side * side }
        ensures { result ≡ record { side = side; entries = entries.items } }
    {
        Matrix { side, entries }
    }

    /// The number of rows, from 1 to 4.
    pub fn side(&self) -> u32
        ensures value { result ≡ self.now.side }
        ensures square { IsSquare self.now }
    {
        self.side
    }

    /// The entry of a row at a column. Condition: both are below the number of rows.
    pub fn get(&self, row: u32, column: u32) -> i128
        requires row { row < self.now.side }
        requires column { column < self.now.side }
        ensures { result ≡ entry self.now row column }
    {
        self.entries[(row * self.side + column) as usize]
    }

    /// Puts an entry at a row and a column. Condition: both are below the number of rows.
    pub fn set(&mut self, row: u32, column: u32, entry: i128)
        requires row { row < self.old.side }
        requires column { column < self.old.side }
        ensures { self.new ≡ record { side = self.old.side; entries = slice_set self.old.entries (row * self.old.side + column) entry } }
    {
        self.entries[(row * self.side + column) as usize] = entry;
    }

    // Whether no entry passes 2^40 in magnitude.
    pub(crate) fn is_small(&self) -> bool
        ensures small { IsTrue result → IsSmall self.now }
        ensures great { IsFalse result → IsSmall self.now → ⊥ }
    {
        for entry in &self.entries {
            if !is_small_entry(entry) {
                return false;
            }
        }
        true
    }

    // Whether the other matrix has the same entries. Condition: it has as many rows.
    pub(crate) fn has_entries_of(&self, other: &Matrix) -> bool
        requires { other.now.side ≡ self.now.side }
        ensures same { IsTrue result → HaveSameEntries self.now other.now }
        ensures differ { IsFalse result → HaveSameEntries self.now other.now → ⊥ }
    {
        for at in 0..self.entries.len() {
            if self.entries[at] != other.entries[at] {
                return false;
            }
        }
        true
    }

    /// The same matrix once more.
    ///
    /// # Errors
    /// `Memory` if the program is out of memory.
    pub fn copied(&self, alloc: Global) -> Result<Matrix, Memory>
        ensures { IfOk result (λ m. m ≡ self.now) }
    {
        match Vec::from_slice(alloc, &self.entries) {
            Ok(entries) => Ok(Matrix {
                side: self.side,
                entries,
            }),
            Err(_) => Err(Memory),
        }
    }
}

// The entry of the identity.
fn identity_entry(row: u32, column: u32) -> i128
    ensures { result ≡ one_where (nat_eq row column) }
{
    if row == column { 1 } else { 0 }
}

// Whether the entry is at most 2^40 in magnitude.
fn is_small_entry(entry: &i128) -> bool
    ensures { result ≡ nat_le (unsigned_abs entry.now) (2 ^ 40) }
{
    entry.unsigned_abs() <= 1 << 40
}
