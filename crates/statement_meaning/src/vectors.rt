//! Judging tests of vectors: the values, and their least common denominator.

ghost use Rattle.std.specs.Prelude.{◌≡◌, ℕ, ◌≤◌, ◌<◌, ◌^◌, All, IfOk, false, map};
ghost use Rattle.fraction_codes.specs.Fractions.{IsSmall};
ghost use Rattle.script_names.specs.Kept.{sets_of};
ghost use Rattle.script_syntax.specs.Trees.{named_of};
ghost use Rattle.script_statements.specs.Statements.{Test};
ghost use Rattle.script_statements.specs.Values.{rational_of};
ghost use Rattle.statement_meaning.specs.Judging.{IsJudgement};
ghost use Rattle.statement_meaning.specs.Values.{IsQuotient, ratio_of, values_pass};
ghost use Rattle.statement_meaning.specs.Vectors.{IsVector};

use crate::finding::kept_with;
use crate::statement::{Statement, Values};
use fraction_codes::{Ratio, common_denominator};
use lash_io::Memory;
use script_meaning::{Refusal, Which, with_sign};
use script_names::Defs;
use script_statements::Rational;
use script_syntax::NameAt;
use std::alloc::Global;

// The greatest number that a script may have.
const LITERAL_LIMIT: u128 = 1 << 64;

// Whether a number of the values passes the limit of literals.
fn has_great_value(values: &[Rational]) -> bool
    ensures { result ≡ values_pass (map rational_of values.now) }
{
    for value in values {
        if value.numerator > LITERAL_LIMIT || value.denominator > LITERAL_LIMIT {
            return true;
        }
    }
    false
}

// A value as a fraction.
fn ratio(value: &Rational) -> Ratio
    requires numerator { value.now.numerator ≤ 2 ^ 64 }
    requires denominator { value.now.denominator ≤ 2 ^ 64 }
    requires positive { 0 < value.now.denominator }
    ensures ratio { result ≡ ratio_of (rational_of value.now) }
    ensures small { IsSmall result }
{
    Ratio {
        num: with_sign(value.minus, value.numerator),
        den: value.denominator as i128,
    }
}

// The values as fractions.
fn ratios(alloc: Global, values: &[Rational]) -> Result<Vec<Ratio>, Memory>
    requires literals { values_pass (map rational_of values.now) ≡ false }
    requires quotients { All IsQuotient (map rational_of values.now) }
    ensures ratios { IfOk result (λ rs. rs.items ≡ map ratio_of (map rational_of values.now)) }
    ensures small { IfOk result (λ rs. All IsSmall rs.items) }
{
    let mut ratios = Vec::new(alloc);
    for value in values {
        match ratios.push(ratio(value)) {
            Ok(()) => {}
            Err(_) => return Err(Memory),
        }
    }
    Ok(ratios)
}

// The values, if they pass no limit.
fn vector(alloc: Global, values: &[Rational]) -> Result<Values, Refusal>
    requires quotients { All IsQuotient (map rational_of values.now) }
    ensures { IsVector (map rational_of values.now) result }
{
    if has_great_value(values) {
        return Err(Refusal::Limit(Which::Literal));
    }
    let ratios = match ratios(alloc, values) {
        Ok(ratios) => ratios,
        Err(_) => return Err(Refusal::Memory),
    };
    match common_denominator(&ratios) {
        Some(_) => Ok(Values::of(ratios)),
        None => Err(Refusal::Limit(Which::Denominator)),
    }
}

/// Judges a test of values.
pub fn tested(
    alloc: Global,
    defs: &Defs,
    name: &NameAt<'_>,
    values: &[Rational],
) -> Result<Statement, Refusal>
    requires quotients { All IsQuotient (map rational_of values.now) }
    ensures { (base : ℕ) → IsJudgement base (sets_of defs.now) (Test (named_of name.now) (map rational_of values.now)) result }
{
    let at = match kept_with(defs, name, values.len()) {
        Ok(at) => at,
        Err(fault) => return Err(Refusal::Fault(fault)),
    };
    match vector(alloc, values) {
        Ok(values) => Ok(Statement::Test { at, values }),
        Err(Refusal::Fault(fault)) => Err(Refusal::Fault(fault)),
        Err(Refusal::Limit(which)) => Err(Refusal::Limit(which)),
        Err(Refusal::Memory) => Err(Refusal::Memory),
    }
}
