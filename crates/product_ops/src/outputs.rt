//! What pairs answer: the truth function of two states' outputs, or of their colours.

ghost use Rattle.lash_model.specs.Tables.{ints, fracs};
ghost use Rattle.product_ops.specs.FractionPairs.{colour_says};
ghost use Rattle.product_ops.specs.Pairs.{is_pair, pair_says};

use crate::Op;
use crate::operation::decide;
use packed_cells::Cells;
use step_tables::{Answers, Table};

/// The truth function of two diagrams' outputs.
#[derive(Drop)]
pub struct PairOutputs<'a, A: Cells, B: Cells> {
    pub op: Op,
    pub left: &'a Table<A>,
    pub right: &'a Table<B>,
}

impl<A: Cells, B: Cells> Answers for PairOutputs<'_, A, B> {
    ghost says_yes = { λ p. pair_says p.op p.left.now.table p.right.now.table };

    ghost is_proper = { λ p. is_pair (ints p.left.now.table) (ints p.right.now.table) };

    fn is_yes(&self, key: &[u32]) -> bool {
        let left = self.left.out(key[0]) == 1;
        let right = self.right.out(key[1]) == 1;
        decide(self.op, left, right)
    }
}

/// The truth function of the colours of two automata with fraction states.
#[derive(Drop)]
pub struct PairColours<'a, A: Cells, B: Cells> {
    pub op: Op,
    pub left: &'a Table<A>,
    pub right: &'a Table<B>,
}

impl<A: Cells, B: Cells> Answers for PairColours<'_, A, B> {
    ghost says_yes = { λ p. colour_says p.op p.left.now.table p.right.now.table };

    ghost is_proper = { λ p. is_pair (fracs p.left.now.table) (fracs p.right.now.table) };

    fn is_yes(&self, key: &[u32]) -> bool {
        let left = self.left.colour(key[0]);
        let right = self.right.colour(key[1]);
        decide(self.op, left, right)
    }
}
