//! Terms put for the free variables of a formula (the usual substitution of linear terms). All limits of the result are judged before any
//! of it is built.

ghost use Rattle.std.specs.Prelude.{◌≡◌, ◌≤◌, ◌+◌, All, IfOk, IfErr, None, length};
ghost use Rattle.formula_core.specs.Counts.{nodes_of, depth_of};
ghost use Rattle.formula_core.specs.Shape.{formula_of};
ghost use Rattle.term_substitution.specs.Conditions.{HasTermsOver, IsOver, IsSubstitute, variables_limit};
ghost use Rattle.term_substitution.specs.Limits.{IsRefused, depth_limit, first_passed, nodes_limit};
ghost use Rattle.term_substitution.specs.Passing.{AreAtomsJudged};
ghost use Rattle.term_substitution.specs.Substitution.{substituted};

use crate::errors::FormError;
use crate::images::substituted_atom;
use crate::judging::{Passed, judge_atoms};
use formula_core::{Formula, Linear};
use lash_io::Memory;
use std::alloc::Global;

/// The formula with the i-th term put for its variable at place i; the result is over `places` variables. A variable that is bound moves
/// behind these: over n terms the place n + j becomes `places` + j. Conditions: the formula is over as many variables as there are terms,
/// has at most 4,096 nodes and a depth of at most 256, and its atoms are inside the limits; the places of the terms are below `places`, and
/// their coefficients and constants are at most 2^88 in magnitude; there are at most 2^20 terms and at most 2^20 places.
///
/// # Errors
/// `Coefficient` where the magnitudes of the coefficients of some atom of the result sum to more than 2^24. `Constant` where none do, and
/// some atom's constant is more than 2^40 in magnitude. `Memory` where memory is wanting. `Nodes` and `Depth` do not come, since the result
/// has the nodes and the depth of the formula.
pub fn subst(
    alloc: Global,
    formula: &Formula,
    terms: &[Linear],
    places: u32,
) -> Result<Formula, FormError>
    requires count { length terms.now ≤ variables_limit }
    requires places { places ≤ variables_limit }
    requires terms { All (IsSubstitute places) terms.now }
    requires over { IsOver (length terms.now) (formula_of formula.now) }
    requires nodes { nodes_of (formula_of formula.now) ≤ nodes_limit }
    requires depth { depth_of (formula_of formula.now) ≤ depth_limit }
    ensures result { IfOk result (λ g. formula_of g ≡ substituted (formula_of formula.now) terms.now places) }
    ensures within { IfOk result (λ g. first_passed (formula_of g) ≡ None) }
    ensures over { IfOk result (λ g. IsOver places (formula_of g)) }
    ensures cause { IfErr result (λ e. IsRefused (substituted (formula_of formula.now) terms.now places) e) }
{
    match judge(alloc, formula, terms, places) {
        Ok(passed) => match passed.first() {
            Some(error) => Err(error),
            None => match replace(alloc, formula, terms, places) {
                Ok(result) => Ok(result),
                Err(_) => Err(FormError::Memory),
            },
        },
        Err(_) => Err(FormError::Memory),
    }
}

/// Which limits some atom of the result of `subst` passes. The conditions are the same.
pub fn judge(
    alloc: Global,
    formula: &Formula,
    terms: &[Linear],
    places: u32,
) -> Result<Passed, Memory>
    requires count { length terms.now ≤ variables_limit }
    requires places { places ≤ variables_limit }
    requires terms { All (IsSubstitute places) terms.now }
    requires over { IsOver (length terms.now) (formula_of formula.now) }
    requires depth { depth_of (formula_of formula.now) ≤ depth_limit }
    ensures { IfOk result (λ p. AreAtomsJudged p (substituted (formula_of formula.now) terms.now places)) }
{
    match judge_atoms(alloc, formula, terms, places) {
        Ok(passed) => Ok(passed),
        Err(error) => Err(error),
    }
}

/// The result of `subst` whatever limits it passes. The conditions are the same.
pub fn replace(
    alloc: Global,
    formula: &Formula,
    terms: &[Linear],
    places: u32,
) -> Result<Formula, Memory>
    requires count { length terms.now ≤ variables_limit }
    requires places { places ≤ variables_limit }
    requires terms { All (IsSubstitute places) terms.now }
    requires over { IsOver (length terms.now) (formula_of formula.now) }
    requires depth { depth_of (formula_of formula.now) ≤ depth_limit }
    ensures { IfOk result (λ g. formula_of g ≡ substituted (formula_of formula.now) terms.now places) }
{
    match replaced(alloc, formula, terms, places) {
        Ok(result) => Ok(result),
        Err(error) => Err(error),
    }
}

// The formula with the terms put for its free variables.
#[cycle(replacing)]
fn replaced(
    alloc: Global,
    formula: &Formula,
    terms: &[Linear],
    places: u32,
) -> Result<Formula, Memory>
    requires count { length terms.now ≤ variables_limit }
    requires places { places ≤ variables_limit }
    requires terms { All (IsSubstitute places) terms.now }
    requires formula { HasTermsOver (length terms.now + 256) (formula_of formula.now) }
    ensures { IfOk result (λ g. formula_of g ≡ substituted (formula_of formula.now) terms.now places) }
{
    match formula {
        Formula::Le(atom) => match substituted_atom(alloc, atom, terms, places) {
            Ok(atom) => Ok(Formula::Le(atom)),
            Err(error) => Err(error),
        },
        Formula::Eq(atom) => match substituted_atom(alloc, atom, terms, places) {
            Ok(atom) => Ok(Formula::Eq(atom)),
            Err(error) => Err(error),
        },
        Formula::Not(inner) => Ok(Formula::Not(replaced_box(alloc, inner, terms, places)?)),
        Formula::And(left, right) => Ok(Formula::And(
            replaced_box(alloc, left, terms, places)?,
            replaced_box(alloc, right, terms, places)?,
        )),
        Formula::Or(left, right) => Ok(Formula::Or(
            replaced_box(alloc, left, terms, places)?,
            replaced_box(alloc, right, terms, places)?,
        )),
        Formula::Exists(sort, inner) => Ok(Formula::Exists(
            *sort,
            replaced_box(alloc, inner, terms, places)?,
        )),
    }
}

// The boxed formula with the terms put for its free variables.
#[cycle(replacing)]
fn replaced_box(
    alloc: Global,
    formula: &Formula,
    terms: &[Linear],
    places: u32,
) -> Result<Box<Formula>, Memory>
    requires count { length terms.now ≤ variables_limit }
    requires places { places ≤ variables_limit }
    requires terms { All (IsSubstitute places) terms.now }
    requires formula { HasTermsOver (length terms.now + 256) (formula_of formula.now) }
    ensures { IfOk result (λ g. formula_of g.value ≡ substituted (formula_of formula.now) terms.now places) }
{
    match replaced(alloc, formula, terms, places) {
        Ok(result) => match Box::new(alloc, result) {
            Ok(result) => Ok(result),
            Err(_) => Err(Memory),
        },
        Err(error) => Err(error),
    }
}
