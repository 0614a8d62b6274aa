//! The least common denominator. The greatest common divisor is found by Euclid's algorithm.

ghost use Rattle.std.specs.Prelude.{◌≡◌, ℕ, ◌+◌, ◌*◌, ◌^◌, ◌<◌, ◌≤◌, List, All, IfSome, IfNone};
ghost use Rattle.fraction_codes.specs.Fractions.{IsSmall, IsCommonDenominator, IsTooFine};
ghost use Rattle.fraction_codes.specs.Steps.{IsGreatestDivisor, IsLeastMultiple, IsReduced};

use crate::parts::{denominator, num_magnitude};
use crate::ratio::Ratio;

/// The greatest least common denominator of a vector that has a code.
const MAX_DENOMINATOR: u128 = 65_536;

/// The greatest common divisor of two numbers, of which the second is positive.
pub(crate) fn greatest_divisor(a: u128, b: u128) -> u128
    requires { 0 < b }
    ensures divisor { IsGreatestDivisor a b result }
    ensures positive { 0 < result }
{
    let mut kept = a;
    let mut left = b;
    while left != 0 {
        let rest = kept % left;
        kept = left;
        left = rest;
    }
    kept
}

/// The denominator in lowest terms.
fn reduced_denominator(value: &Ratio) -> u128
    requires { IsSmall value.now }
    ensures { IsReduced value.now result }
{
    let den = denominator(value);
    den / greatest_divisor(num_magnitude(value), den)
}

/// The least common multiple of two positive numbers, the first at most 65,536 and the second at most 2 ^ 100.
fn least_multiple(a: u128, b: u128) -> u128
    requires first { 0 < a }
    requires second { 0 < b }
    requires low { a ≤ 65536 }
    requires high { b ≤ 2 ^ 100 }
    ensures { IsLeastMultiple a b result }
{
    a / greatest_divisor(a, b) * b
}

/// The least common denominator of the fractions; None exactly where it passes 65,536. Conditions: the denominators are positive, and neither
/// part of a fraction passes 2^100.
pub fn common_denominator(values: &[Ratio]) -> Option<u32>
    requires { All IsSmall values.now }
    ensures some { IfSome result (λ d. IsCommonDenominator values.now d × (d ≤ 65536)) }
    ensures none { IfNone result (IsTooFine values.now) }
{
    let mut divisor = 1;
    for value in values {
        divisor = least_multiple(divisor, reduced_denominator(value));
        if divisor > MAX_DENOMINATOR {
            return None;
        }
    }
    Some(divisor as u32)
}
