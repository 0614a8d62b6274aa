//! The limits of a closure that was built.

ghost use Rattle.std.specs.Prelude.{◌≡◌, ◌≤◌};
ghost use Rattle.formula_core.specs.Counts.{nodes_of};
ghost use Rattle.formula_core.specs.Shape.{formula_of};
ghost use Rattle.loop_closure.specs.Refusing.{error_of};
ghost use Rattle.term_substitution.specs.Limits.{first_passed, nodes_limit};
ghost use Rattle.term_substitution.specs.Passing.{AreAtomsJudged};

use crate::errors::LoopError;
use formula_core::{Formula, depth};
use term_substitution::{FormError, Passed};

// Which limits some atom of the formula passes.
fn atoms_passed(formula: &Formula) -> Passed
    ensures { AreAtomsJudged result (formula_of formula.now) }
{
    match formula {
        Formula::Le(atom) | Formula::Eq(atom) => Passed::of(atom),
        Formula::Not(inner) | Formula::Exists(_, inner) => atoms_passed(inner),
        Formula::And(left, right) | Formula::Or(left, right) => {
            let one = atoms_passed(left);
            one.or(atoms_passed(right))
        }
    }
}

/// The first limit that a formula of at most 4,096 nodes passes.
pub(crate) fn limit(formula: &Formula) -> Option<FormError>
    requires { nodes_of (formula_of formula.now) ≤ nodes_limit }
    ensures { result ≡ first_passed (formula_of formula.now) }
{
    if depth(formula) > 256 {
        return Some(FormError::Depth);
    }
    atoms_passed(formula).first()
}

/// The loop's error where its closure passes the limit.
pub(crate) fn refused(error: FormError) -> LoopError
    ensures { result ≡ error_of error }
{
    match error {
        FormError::Nodes => LoopError::Nodes,
        FormError::Depth => LoopError::Depth,
        FormError::Coefficient => LoopError::Coefficient,
        FormError::Constant => LoopError::Constant,
        FormError::Memory => LoopError::Memory,
    }
}
