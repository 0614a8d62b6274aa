//! The pairs of fraction states of two automata that read one lasso, as a machine to be explored. It starts at the outputs of the pairs
//! of integer states that were explored before.

ghost use Rattle.std.specs.Prelude.{◌≡◌, ◌<◌, All, IsTrue};
ghost use Rattle.lash_model.specs.Tables.{ints, fracs};
ghost use Rattle.product_ops.specs.Pairs.{is_pair, AreOperands};

use crate::pairs::{ENTRIES, write_pair};
use crate::reading::Reader;
use lash_io::Memory;
use packed_cells::Cells;
use std::marker::Model;
use step_tables::{Explored, Key, Machine};

/// Two automata of one base with fraction states, each with the tracks that it reads of the result, and their pairs of integer states.
#[derive(Drop)]
pub struct FractionPairs<'a, A: Cells, B: Cells> {
    width: u32,
    left: &'a Reader<'a, A>,
    right: &'a Reader<'a, B>,
    whole: &'a Explored,
}

impl<'a, A: Cells, B: Cells> Model for FractionPairs<'a, A, B> {
    ghost use Rattle.product_ops.specs.FractionPairs.{LedOperands, AreLed};

    ghost Value = { LedOperands };

    ghost view = { λ p. record { left = p.left.now; right = p.right.now; whole = p.whole.now } };

    ghost invariant = { λ p. AreLed p.width (record { left = p.left.now; right = p.right.now; whole = p.whole.now }) };
}

impl<'a, A: Cells, B: Cells> FractionPairs<'a, A, B> {
    /// The pairs to which explored pairs of integer states lead. Both automata have fraction states.
    pub fn new(left: &'a Reader<'a, A>, right: &'a Reader<'a, B>, whole: &'a Explored) -> Self
        requires operands { AreOperands (record { left = left.now; right = right.now }) }
        requires left { 0 < fracs left.now.table }
        requires right { 0 < fracs right.now.table }
        requires whole { All (λ k. IsTrue (is_pair (ints left.now.table) (ints right.now.table) k)) whole.now.keys }
        ensures { result ≡ record { left = left.now; right = right.now; whole = whole.now } }
    {
        FractionPairs {
            width: left.letters(),
            left,
            right,
            whole,
        }
    }
}

impl<A: Cells, B: Cells> Machine for FractionPairs<'_, A, B> {
    ghost use Rattle.graph_laws.specs.Exploring.{led_by};
    ghost use Rattle.product_ops.specs.FractionPairs.{outs_of, fraction_pairs_of};

    ghost meaning = { λ p. led_by (outs_of p.left.table p.right.table) (fraction_pairs_of p.left p.right) p.whole.keys };

    fn letters(&self) -> u32 {
        self.width
    }

    fn starts(&self) -> usize {
        self.whole.len() as usize
    }

    fn start(&mut self, at: usize, into: &mut Key) -> Result<(), Memory> {
        let _count = self.whole.len();
        let key = self.whole.key(at as u32);
        write_pair(self.left.out(key[0]), self.right.out(key[1]), into)
    }

    fn step(&mut self, from: &Key, letter: u32, into: &mut Key) -> Result<(), Memory> {
        let key = from.as_slice();
        let left = self.left.fraction_step(key[0], letter);
        let right = self.right.fraction_step(key[1], letter);
        write_pair(left, right, into)
    }

    fn numbers(&self) -> u64 {
        u64::from(self.left.fraction_states()) * u64::from(self.right.fraction_states())
    }

    fn radix(&self) -> u32 {
        self.right.fraction_states()
    }

    fn number_behind(&self, from: &Key, letter: u32) -> u64 {
        let key = from.as_slice();
        let left = self.left.fraction_step(key[0], letter);
        let right = self.right.fraction_step(key[1], letter);
        u64::from(left) * u64::from(self.right.fraction_states()) + u64::from(right)
    }

    fn is_behind(&self, from: &Key, letter: u32, key: &[u32]) -> bool {
        let entries = from.as_slice();
        key.len() == 2
            && key[0] == self.left.fraction_step(entries[0], letter)
            && key[1] == self.right.fraction_step(entries[1], letter)
    }

    fn weight(&self, _key: &Key) -> u64 {
        ENTRIES
    }
}
