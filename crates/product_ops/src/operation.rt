//! The truth functions.

ghost use Rattle.std.specs.Prelude.{◌≡◌};
ghost use Rattle.product_ops.specs.Operations.{truth};

/// Both, one of the two, or the left without the right.
#[derive(Clone, Copy, Debug, PartialEq, Eq)]
pub enum Op {
    And,
    Or,
    AndNot,
}

/// The truth function of two answers.
pub(crate) fn decide(op: Op, left: bool, right: bool) -> bool
    ensures { result ≡ truth op left right }
{
    match op {
        Op::And => left && right,
        Op::Or => left || right,
        Op::AndNot => left && !right,
    }
}
