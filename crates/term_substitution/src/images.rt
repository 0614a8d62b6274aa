//! What the atoms of a formula become. Each variable of an atom gives way to a term, whose coefficients are multiplied by the variable's and
//! added up at their places (own). At one place they stay below 2^113: an atom's coefficients are within 2^24 together, and each term has one
//! coefficient of at most 2^88 there.

ghost use Rattle.std.specs.Prelude.{◌≡◌, ◌≤◌, ◌<◌, ◌+◌, ◌*◌, ◌^◌, ◌*ℤ◌, ℕ, [], All, IfOk, OnOk, length, unsigned_abs};
ghost use Rattle.lash_model.specs.Formulas.{coefficient_sum};
ghost use Rattle.term_substitution.specs.Conditions.{IsTermOver, IsSubstitute, variables_limit};
ghost use Rattle.term_substitution.specs.Substitution.{image, with_scaled, with_images, constants_of, substituted_term};
ghost use Rattle.formula_core.specs.Terms.{added};
ghost use Rattle.term_substitution.specs.Weights.{weight_at};

use formula_core::Linear;
use lash_io::Memory;
use std::alloc::Global;

// The product of a variable's coefficient and one of a term.
fn product(variable: &(u32, i128), part: &(u32, i128)) -> i128
    requires variable { unsigned_abs variable.now.1 ≤ 2 ^ 24 }
    requires part { unsigned_abs part.now.1 ≤ 2 ^ 88 }
    ensures value { result ≡ variable.now.1 *ℤ part.now.1 }
{
    variable.1 * part.1
}

// Adds the coefficients of a term, each times the variable's.
fn add_scaled(atom: &mut Linear, variable: &(u32, i128), term: &Linear) -> Result<(), Memory>
    requires variable { unsigned_abs variable.now.1 ≤ 2 ^ 24 }
    requires coefficients { All (λ t. unsigned_abs t.1 ≤ 2 ^ 88) term.now.terms }
    requires light { (place : ℕ) → weight_at atom.old.terms place + unsigned_abs variable.now.1 * 2 ^ 88 ≤ 2 ^ 113 }
    ensures added { OnOk result (atom.new ≡ record { terms = with_scaled atom.old.terms variable.now.1 term.now.terms; constant = atom.old.constant }) }
    ensures light { OnOk result ((place : ℕ) → weight_at atom.new.terms place ≤ weight_at atom.old.terms place + unsigned_abs variable.now.1 * 2 ^ 88) }
{
    for part in term.terms() {
        match atom.add(part.0, product(variable, part)) {
            Ok(()) => {}
            Err(error) => return Err(error),
        }
    }
    Ok(())
}

// Adds the coefficients of what a variable becomes, each times the variable's.
fn add_image(
    atom: &mut Linear,
    variable: &(u32, i128),
    terms: &[Linear],
    places: u32,
) -> Result<(), Memory>
    requires count { length terms.now ≤ variables_limit }
    requires places { places ≤ variables_limit }
    requires terms { All (IsSubstitute places) terms.now }
    requires place { variable.now.0 < length terms.now + 256 }
    requires variable { unsigned_abs variable.now.1 ≤ 2 ^ 24 }
    requires light { (place : ℕ) → weight_at atom.old.terms place + unsigned_abs variable.now.1 * 2 ^ 88 ≤ 2 ^ 113 }
    ensures added { OnOk result (atom.new ≡ record { terms = with_scaled atom.old.terms variable.now.1 (image terms.now places variable.now.0).terms; constant = atom.old.constant }) }
    ensures light { OnOk result ((place : ℕ) → weight_at atom.new.terms place ≤ weight_at atom.old.terms place + unsigned_abs variable.now.1 * 2 ^ 88) }
{
    match terms.get(variable.0 as usize) {
        Some(term) => add_scaled(atom, variable, term),
        None => add_moved(atom, variable, places + (variable.0 - terms.len() as u32)),
    }
}

// Adds the coefficient of a variable at another place.
fn add_moved(atom: &mut Linear, variable: &(u32, i128), place: u32) -> Result<(), Memory>
    requires light { (at : ℕ) → weight_at atom.old.terms at + unsigned_abs variable.now.1 * 2 ^ 88 ≤ 2 ^ 113 }
    ensures added { OnOk result (atom.new ≡ record { terms = added atom.old.terms place variable.now.1; constant = atom.old.constant }) }
    ensures light { OnOk result ((at : ℕ) → weight_at atom.new.terms at ≤ weight_at atom.old.terms at + unsigned_abs variable.now.1 * 2 ^ 88) }
{
    match atom.add(place, variable.1) {
        Ok(()) => Ok(()),
        Err(error) => Err(error),
    }
}

// Adds the coefficients of what the variables become, each times the variable's.
fn add_images(
    atom: &mut Linear,
    variables: &[(u32, i128)],
    terms: &[Linear],
    places: u32,
) -> Result<(), Memory>
    requires count { length terms.now ≤ variables_limit }
    requires places { places ≤ variables_limit }
    requires terms { All (IsSubstitute places) terms.now }
    requires places_below { All (λ t. t.0 < length terms.now + 256) variables.now }
    requires few { coefficient_sum variables.now ≤ 2 ^ 24 }
    requires none { atom.old.terms ≡ [] }
    ensures { OnOk result (atom.new ≡ record { terms = with_images terms.now places [] variables.now; constant = atom.old.constant }) }
{
    for variable in variables {
        match add_image(atom, variable, terms, places) {
            Ok(()) => {}
            Err(error) => return Err(error),
        }
    }
    Ok(())
}

// The constant of what a variable becomes, times the variable's coefficient.
fn image_constant(variable: &(u32, i128), terms: &[Linear]) -> i128
    requires terms { All (λ t. unsigned_abs t.constant ≤ 2 ^ 88) terms.now }
    requires variable { unsigned_abs variable.now.1 ≤ 2 ^ 24 }
    ensures value { (places : ℕ) → result ≡ variable.now.1 *ℤ (image terms.now places variable.now.0).constant }
    ensures small { unsigned_abs result ≤ unsigned_abs variable.now.1 * 2 ^ 88 }
{
    match terms.get(variable.0 as usize) {
        Some(term) => variable.1 * term.constant(),
        None => 0,
    }
}

// The constants of what the variables become, each times the variable's coefficient, added up.
fn constants(variables: &[(u32, i128)], terms: &[Linear]) -> i128
    requires terms { All (λ t. unsigned_abs t.constant ≤ 2 ^ 88) terms.now }
    requires few { coefficient_sum variables.now ≤ 2 ^ 24 }
    ensures value { (places : ℕ) → result ≡ constants_of terms.now places variables.now }
    ensures small { unsigned_abs result ≤ 2 ^ 112 }
{
    let mut sum = 0;
    for variable in variables {
        sum += image_constant(variable, terms);
    }
    sum
}

/// The atom's term with the terms put for its free variables.
pub fn substituted_atom(
    alloc: Global,
    atom: &Linear,
    terms: &[Linear],
    places: u32,
) -> Result<Linear, Memory>
    requires count { length terms.now ≤ variables_limit }
    requires places { places ≤ variables_limit }
    requires terms { All (IsSubstitute places) terms.now }
    requires atom { IsTermOver (length terms.now + 256) atom.now }
    ensures { IfOk result (λ a. a ≡ substituted_term terms.now places atom.now) }
{
    let constant = atom.constant() - constants(atom.terms(), terms);
    let mut result = Linear::new(alloc, constant);
    match add_images(&mut result, atom.terms(), terms, places) {
        Ok(()) => Ok(result),
        Err(error) => Err(error),
    }
}
