//! Cells of 1 to 32 bits, one after the other in words of 64 bits; a cell may lie across two words. Own. Reading or changing a cell
//! takes one or two words.

ghost use Rattle.std.specs.Prelude.{◌≡◌, ℕ, ◌*◌, ◌^◌, ◌≤◌, List, length, replicate, IfOk};
ghost use Rattle.packed_cells.specs.Cells.{InBits, IsLeastBits};

use crate::Cells;
use crate::bits::{read_bits, write_bits};
use crate::least::{largest, least_bits};
use lash_io::Memory;
use std::alloc::Global;
use std::marker::Model;

/// Cells of so many bits each.
#[derive(Drop)]
pub struct Packed {
    words: Vec<u64>,
    len: usize,
    bits: u32,
}

impl Model for Packed {
    ghost use Rattle.std.specs.Prelude.{◌^◌, length};
    ghost use Rattle.packed_cells.specs.Cells.{InBits, IsFull};
    ghost use Rattle.packed_cells.specs.Digits.{number_of, digits_of};

    ghost Value = { InBits };

    ghost view = { λ p. record { items = digits_of (2 ^ p.bits) p.len (number_of (2 ^ 64) p.words.items); bits = p.bits } };

    ghost invariant = { λ p. IsFull p.len p.bits (length p.words.items) };
}

impl Packed {
    /// So many zeros, in cells of 1 to 32 bits. All cells together have at most 2^40 bits.
    pub fn new(alloc: Global, len: usize, bits: u32) -> Result<Packed, Memory>
        requires low { 1 ≤ bits }
        requires high { bits ≤ 32 }
        requires few { len * bits ≤ 2 ^ 40 }
        ensures { IfOk result (λ p. p ≡ record { items = replicate len 0; bits = bits }) }
    {
        match vec![in alloc; 0; (len * bits as usize).div_ceil(64)] {
            Ok(words) => Ok(Packed { words, len, bits }),
            Err(_) => Err(Memory),
        }
    }

    /// The same list, of at most 2^35 numbers, in cells of the least bits that hold each of them, at least 1.
    pub fn of_cells<C: Cells>(alloc: Global, cells: &C) -> Result<Packed, Memory>
        requires { length (C.items cells.now) ≤ 2 ^ 35 }
        ensures items { IfOk result (λ p. p.items ≡ C.items cells.now) }
        ensures bits { IfOk result (λ p. IsLeastBits (C.items cells.now) p.bits) }
    {
        let mut packed = match Packed::new(alloc, cells.len(), least_bits(largest(cells))) {
            Ok(packed) => packed,
            Err(Memory) => return Err(Memory),
        };
        for at in 0..cells.len() {
            packed.set(at, cells.get(at));
        }
        Ok(packed)
    }

    /// How many words of 64 bits the cells take: the least number of words that holds them all.
    pub fn word_count(&self) -> usize
        ensures enough { length self.now.items * self.now.bits ≤ result * 64 }
        ensures few { result ≤ 2 ^ 34 }
        ensures least { (words : ℕ) → length self.now.items * self.now.bits ≤ words * 64 → result ≤ words }
    {
        self.words.len()
    }
}

impl Cells for Packed {
    ghost items = { λ p. p.items };

    ghost limit = { λ p. 2 ^ p.bits };

    fn len(&self) -> usize {
        self.len
    }

    fn bound(&self) -> u64 {
        1 << self.bits
    }

    fn get(&self, at: usize) -> u32 {
        read_bits(self.words.as_slice(), at * self.bits as usize, self.bits)
    }

    fn lent(&self) -> Option<&[u32]> {
        None
    }

    fn set(&mut self, at: usize, value: u32) {
        write_bits(
            self.words.as_mut_slice(),
            at * self.bits as usize,
            self.bits,
            value,
        );
    }
}
