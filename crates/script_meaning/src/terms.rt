//! The atom of a comparison: the terms of both sides become coefficients at places, and a constant.

ghost use Rattle.std.specs.Prelude.{◌≡◌, ◌≤◌, ◌<◌, ◌+◌, ◌*◌, ◌^◌, false, true, IfOk, OnOk, length, unsigned_abs};
ghost use Rattle.lash_model.specs.Formulas.{coefficient_sum};
ghost use Rattle.script_meaning.specs.Core.{signed, turned, part_constant, constant_of, difference as atom_of, added_at, with_part, with_term};
ghost use Rattle.script_names.specs.Scopes.{place_of};
ghost use Rattle.script_meaning.specs.Limits.{part_passes, term_passes, terms_limit};
ghost use Rattle.script_syntax.specs.Trees.{named_of, part_of, signed_of, term_of};

use formula_core::Linear;
use lash_io::Memory;
use script_names::Scope;
use script_syntax::{NameAt, Part, Signed, Term};
use std::alloc::Global;

/// A number with its sign. The number is at most 2^64.
pub fn with_sign(minus: bool, number: u128) -> i128
    requires { number ≤ 2 ^ 64 }
    ensures value { result ≡ signed minus number }
    ensures small { unsigned_abs result ≤ 2 ^ 64 }
{
    if minus {
        -(number as i128)
    } else {
        number as i128
    }
}

// The constant of a part, with its sign; 0 where it has a variable.
fn constant_part(signed: &Signed<'_>) -> i128
    requires { part_passes (part_of signed.now.part) ≡ false }
    ensures value { result ≡ part_constant signed.now.minus (part_of signed.now.part) }
    ensures small { unsigned_abs result ≤ 2 ^ 64 }
{
    match signed.part {
        Part::Constant(number) => with_sign(signed.minus, number),
        _ => 0,
    }
}

/// The sum of the constants of a term.
pub fn constant(term: &Term<'_>) -> i128
    requires literals { term_passes (term_of term.now) ≡ false }
    requires count { length term.now.parts.items ≤ terms_limit }
    ensures value { result ≡ constant_of (term_of term.now) }
    ensures small { unsigned_abs result ≤ terms_limit * 2 ^ 64 }
{
    let mut sum = 0;
    for signed in &term.parts {
        sum += constant_part(signed);
    }
    sum
}

// Adds a coefficient at the place of a name, if it is in scope.
fn add_at(
    scope: &Scope<'_>,
    atom: &mut Linear,
    name: &NameAt<'_>,
    coefficient: i128,
) -> Result<(), Memory>
    requires scope { length scope.now ≤ terms_limit }
    requires sum { coefficient_sum atom.old.terms ≤ 2 * terms_limit * 2 ^ 64 }
    requires coefficient { unsigned_abs coefficient ≤ 2 ^ 64 }
    ensures added { OnOk result (atom.new ≡ record { terms = added_at atom.old.terms (place_of scope.now (named_of name.now).left) coefficient; constant = atom.old.constant }) }
    ensures sum { OnOk result (coefficient_sum atom.new.terms ≤ coefficient_sum atom.old.terms + 2 ^ 64) }
{
    let place = match scope.place(name.bytes) {
        Some(place) => place as u32,
        None => return Ok(()),
    };
    match atom.add(place, coefficient) {
        Ok(()) => Ok(()),
        Err(error) => Err(error),
    }
}

// Adds the coefficient of a part; where the side is turned it is taken away.
fn add_part(
    scope: &Scope<'_>,
    atom: &mut Linear,
    signed: &Signed<'_>,
    turn: bool,
) -> Result<(), Memory>
    requires scope { length scope.now ≤ terms_limit }
    requires sum { coefficient_sum atom.old.terms ≤ 2 * terms_limit * 2 ^ 64 }
    requires literal { part_passes (part_of signed.now.part) ≡ false }
    ensures added { OnOk result (atom.new ≡ record { terms = with_part scope.now atom.old.terms (turned turn signed.now.minus) (part_of signed.now.part); constant = atom.old.constant }) }
    ensures sum { OnOk result (coefficient_sum atom.new.terms ≤ coefficient_sum atom.old.terms + 2 ^ 64) }
{
    let minus = signed.minus != turn;
    match &signed.part {
        Part::Constant(_) => Ok(()),
        Part::Scaled(factor, name) => add_at(scope, atom, name, with_sign(minus, *factor)),
        Part::Variable(name) => add_at(scope, atom, name, with_sign(minus, 1)),
    }
}

/// Adds the coefficients of a term; where the side is turned they are taken away.
pub fn add_term(
    scope: &Scope<'_>,
    atom: &mut Linear,
    term: &Term<'_>,
    turn: bool,
) -> Result<(), Memory>
    requires scope { length scope.now ≤ terms_limit }
    requires sum { coefficient_sum atom.old.terms ≤ terms_limit * 2 ^ 64 }
    requires literals { term_passes (term_of term.now) ≡ false }
    requires count { length term.now.parts.items ≤ terms_limit }
    ensures added { OnOk result (atom.new ≡ record { terms = with_term scope.now turn atom.old.terms (term_of term.now); constant = atom.old.constant }) }
    ensures sum { OnOk result (coefficient_sum atom.new.terms ≤ coefficient_sum atom.old.terms + length term.now.parts.items * 2 ^ 64) }
{
    for signed in &term.parts {
        match add_part(scope, atom, signed, turn) {
            Ok(()) => {}
            Err(error) => return Err(error),
        }
    }
    Ok(())
}

/// The atom of left - right <= 0, or of left - right = 0.
pub fn difference(
    alloc: Global,
    scope: &Scope<'_>,
    left: &Term<'_>,
    right: &Term<'_>,
) -> Result<Linear, Memory>
    requires scope { length scope.now ≤ terms_limit }
    requires left_literals { term_passes (term_of left.now) ≡ false }
    requires left_count { length left.now.parts.items ≤ terms_limit }
    requires right_literals { term_passes (term_of right.now) ≡ false }
    requires right_count { length right.now.parts.items ≤ terms_limit }
    ensures { IfOk result (λ a. a ≡ atom_of scope.now (term_of left.now) (term_of right.now)) }
{
    let mut atom = Linear::new(alloc, constant(right) - constant(left));
    match add_term(scope, &mut atom, left, false) {
        Ok(()) => {}
        Err(error) => return Err(error),
    }
    match add_term(scope, &mut atom, right, true) {
        Ok(()) => Ok(atom),
        Err(error) => Err(error),
    }
}
