//! Formulas joined from the left, one after the other.

ghost use Rattle.std.specs.Prelude.{◌≡◌, IfOk, [], ◌∷◌};
ghost use Rattle.formula_core.specs.Shape.{formula_of};
ghost use Rattle.loop_closure.specs.Builders.{joined_on, settled, whole_of};
ghost use Rattle.loop_closure.specs.Joins.{join_of};

use formula_core::{Formula, Linear};
use lash_io::Memory;
use std::alloc::Global;

/// How formulas are joined: all of them hold, or some of them.
#[derive(Clone, Copy)]
pub(crate) enum Join {
    Every,
    Any,
}

// The formula in a box.
fn boxed(alloc: Global, formula: Formula) -> Result<Box<Formula>, Memory>
    ensures { IfOk result (λ f. formula_of f.value ≡ formula_of formula) }
{
    match Box::new(alloc, formula) {
        Ok(formula) => Ok(formula),
        Err(_) => Err(Memory),
    }
}

/// Two formulas joined.
pub(crate) fn pair(
    alloc: Global,
    join: Join,
    left: Formula,
    right: Formula,
) -> Result<Formula, Memory>
    ensures { IfOk result (λ f. formula_of f ≡ join_of join (formula_of left) (formula_of right)) }
{
    let left = match boxed(alloc, left) {
        Ok(left) => left,
        Err(error) => return Err(error),
    };
    let right = match boxed(alloc, right) {
        Ok(right) => right,
        Err(error) => return Err(error),
    };
    match join {
        Join::Every => Ok(Formula::And(left, right)),
        Join::Any => Ok(Formula::Or(left, right)),
    }
}

/// A formula joined to those so far.
pub(crate) fn put(
    alloc: Global,
    join: Join,
    whole: Option<Formula>,
    formula: Formula,
) -> Result<Option<Formula>, Memory>
    ensures { IfOk result (λ w. whole_of w ≡ joined_on (join_of join) (whole_of whole) (formula_of formula ∷ [])) }
{
    match whole {
        Some(left) => match pair(alloc, join, left, formula) {
            Ok(formula) => Ok(Some(formula)),
            Err(error) => Err(error),
        },
        None => Ok(Some(formula)),
    }
}

/// The joined formula; of none a comparison that holds.
pub(crate) fn settle(alloc: Global, whole: Option<Formula>) -> Formula
    ensures { formula_of result ≡ settled (whole_of whole) }
{
    match whole {
        Some(formula) => formula,
        None => Formula::Le(Linear::new(alloc, 0)),
    }
}
