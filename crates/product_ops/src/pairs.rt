//! The pairs of integer states of two automata that read one word (the synchronous product of Rabin and Scott), as a machine to be
//! explored.

ghost use Rattle.std.specs.Prelude.{◌≡◌, [], ◌∷◌, OnOk};
ghost use Rattle.product_ops.specs.Pairs.{pair, AreOperands};

use crate::reading::Reader;
use lash_io::Memory;
use packed_cells::Cells;
use std::marker::Model;
use step_tables::{Key, Machine};

/// The entries of a pair's key, which are its weight.
pub(crate) const ENTRIES: u64 = 2;

/// Two automata of one base, each with the tracks that it reads of the result.
#[derive(Drop)]
pub struct Pairs<'a, A: Cells, B: Cells> {
    width: u32,
    signs: usize,
    left: &'a Reader<'a, A>,
    right: &'a Reader<'a, B>,
}

impl<'a, A: Cells, B: Cells> Model for Pairs<'a, A, B> {
    ghost use Rattle.product_ops.specs.Pairs.{Operands, IsCounted};

    ghost Value = { Operands };

    ghost view = { λ p. record { left = p.left.now; right = p.right.now } };

    ghost invariant = { λ p. IsCounted p.width p.signs (record { left = p.left.now; right = p.right.now }) };
}

/// Writes the key of a pair.
pub(crate) fn write_pair(left: u32, right: u32, into: &mut Key) -> Result<(), Memory>
    ensures { OnOk result (into.new.items ≡ pair left right) }
{
    if into.len() == 2 {
        let entries = into.as_mut_slice();
        entries[0] = left;
        entries[1] = right;
        return Ok(());
    }
    into.clear();
    match into.extend_from_slice(&[left, right]) {
        Ok(()) => Ok(()),
        Err(_) => Err(Memory),
    }
}

impl<'a, A: Cells, B: Cells> Pairs<'a, A, B> {
    /// The pairs of two automata of one base that read tracks of one result.
    pub fn new(left: &'a Reader<'a, A>, right: &'a Reader<'a, B>) -> Self
        requires { AreOperands (record { left = left.now; right = right.now }) }
        ensures { result ≡ record { left = left.now; right = right.now } }
    {
        Pairs {
            width: left.letters(),
            signs: left.signs(),
            left,
            right,
        }
    }
}

impl<A: Cells, B: Cells> Machine for Pairs<'_, A, B> {
    ghost use Rattle.product_ops.specs.Pairs.{pairs_of};

    ghost meaning = { λ p. pairs_of p.left p.right };

    fn letters(&self) -> u32 {
        self.width
    }

    fn starts(&self) -> usize {
        self.signs
    }

    fn start(&mut self, at: usize, into: &mut Key) -> Result<(), Memory> {
        write_pair(self.left.root(at), self.right.root(at), into)
    }

    fn step(&mut self, from: &Key, letter: u32, into: &mut Key) -> Result<(), Memory> {
        let key = from.as_slice();
        let left = self.left.step(key[0], letter);
        let right = self.right.step(key[1], letter);
        write_pair(left, right, into)
    }

    fn numbers(&self) -> u64 {
        u64::from(self.left.states()) * u64::from(self.right.states())
    }

    fn radix(&self) -> u32 {
        self.right.states()
    }

    fn number_behind(&self, from: &Key, letter: u32) -> u64 {
        let key = from.as_slice();
        let left = self.left.step(key[0], letter);
        let right = self.right.step(key[1], letter);
        u64::from(left) * u64::from(self.right.states()) + u64::from(right)
    }

    fn is_behind(&self, from: &Key, letter: u32, key: &[u32]) -> bool {
        let entries = from.as_slice();
        key.len() == 2
            && key[0] == self.left.step(entries[0], letter)
            && key[1] == self.right.step(entries[1], letter)
    }

    fn weight(&self, _key: &Key) -> u64 {
        ENTRIES
    }
}
