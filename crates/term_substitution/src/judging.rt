//! Whether atoms of the result pass the limits of coefficients and constants. Each atom is made for a moment, so that no formula is built
//! before all its limits were judged.

ghost use Rattle.std.specs.Prelude.{◌≡◌, ◌≤◌, ◌+◌, ◌^◌, All, IfOk, length, unsigned_abs};
ghost use Rattle.formula_core.specs.Shape.{formula_of};
ghost use Rattle.term_substitution.specs.Conditions.{HasTermsOver, IsSubstitute, IsTermOver, variables_limit};
ghost use Rattle.term_substitution.specs.Limits.{coefficients_pass, constant_passes};
ghost use Rattle.term_substitution.specs.Passing.{IsAtomJudged, AreAtomsJudged, atom_passed, either_of};
ghost use Rattle.term_substitution.specs.Substitution.{substituted, substituted_term};

use crate::errors::FormError;
use crate::images::substituted_atom;
use formula_core::{Formula, Linear};
use lash_io::Memory;
use std::alloc::Global;

/// Which of the two limits some atom passes.
#[derive(Clone, Copy, Debug)]
pub struct Passed {
    pub coefficients: bool,
    pub constant: bool,
}

impl Passed {
    /// The first limit that is passed: coefficients come before constants.
    pub fn first(self) -> Option<FormError>
        ensures { result ≡ atom_passed self }
    {
        if self.coefficients {
            Some(FormError::Coefficient)
        } else if self.constant {
            Some(FormError::Constant)
        } else {
            None
        }
    }

    /// Which limits the atom passes.
    pub fn of(atom: &Linear) -> Passed
        ensures { IsAtomJudged result atom.now }
    {
        Passed {
            coefficients: great_coefficients(atom),
            constant: great_constant(atom),
        }
    }

    /// What is found of either.
    pub fn or(self, other: Passed) -> Passed
        ensures { result ≡ either_of self other }
    {
        Passed {
            coefficients: self.coefficients || other.coefficients,
            constant: self.constant || other.constant,
        }
    }
}

// The magnitude of a term's coefficient.
fn magnitude(term: &(u32, i128)) -> u128
    ensures value { result ≡ unsigned_abs term.now.1 }
    ensures small { result ≤ 2 ^ 127 }
{
    term.1.unsigned_abs()
}

// Whether the magnitudes of the coefficients sum to more than 2^24.
fn great_coefficients(atom: &Linear) -> bool
    ensures { result ≡ coefficients_pass atom.now }
{
    let mut sum: u128 = 0;
    for term in atom.terms() {
        sum += magnitude(term);
        if sum > 1 << 24 {
            return true;
        }
    }
    false
}

// Whether the constant is more than 2^40 in magnitude.
fn great_constant(atom: &Linear) -> bool
    ensures { result ≡ constant_passes atom.now }
{
    atom.constant().unsigned_abs() > 1 << 40
}

// Which limits the atom passes with the terms put for its free variables.
fn judge_atom(alloc: Global, atom: &Linear, terms: &[Linear], places: u32) -> Result<Passed, Memory>
    requires count { length terms.now ≤ variables_limit }
    requires places { places ≤ variables_limit }
    requires terms { All (IsSubstitute places) terms.now }
    requires atom { IsTermOver (length terms.now + 256) atom.now }
    ensures { IfOk result (λ p. IsAtomJudged p (substituted_term terms.now places atom.now)) }
{
    match substituted_atom(alloc, atom, terms, places) {
        Ok(atom) => Ok(Passed::of(&atom)),
        Err(error) => Err(error),
    }
}

/// Which limits some atom of the formula passes with the terms put for its free variables.
#[cycle(judging)]
pub fn judge_atoms(
    alloc: Global,
    formula: &Formula,
    terms: &[Linear],
    places: u32,
) -> Result<Passed, Memory>
    requires count { length terms.now ≤ variables_limit }
    requires places { places ≤ variables_limit }
    requires terms { All (IsSubstitute places) terms.now }
    requires formula { HasTermsOver (length terms.now + 256) (formula_of formula.now) }
    ensures { IfOk result (λ p. AreAtomsJudged p (substituted (formula_of formula.now) terms.now places)) }
{
    match formula {
        Formula::Le(atom) | Formula::Eq(atom) => match judge_atom(alloc, atom, terms, places) {
            Ok(passed) => Ok(passed),
            Err(error) => Err(error),
        },
        Formula::Not(inner) | Formula::Exists(_, inner) => {
            match judge_atoms(alloc, inner, terms, places) {
                Ok(passed) => Ok(passed),
                Err(error) => Err(error),
            }
        }
        Formula::And(left, right) | Formula::Or(left, right) => {
            let one = match judge_atoms(alloc, left, terms, places) {
                Ok(one) => one,
                Err(error) => return Err(error),
            };
            match judge_atoms(alloc, right, terms, places) {
                Ok(other) => Ok(one.or(other)),
                Err(error) => Err(error),
            }
        }
    }
}
