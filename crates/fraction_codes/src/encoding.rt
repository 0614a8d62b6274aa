//! The fixed code of a vector of fractions: the shortest whole word in r's complement, and the long division of what is above the
//! floors.

ghost use Rattle.std.specs.Prelude.{◌≡◌, ℕ, ◌+◌, ◌-◌, ◌*◌, ◌^◌, ◌<◌, ◌≤◌, List, All, length, map, IfOk, IfErr};
ghost use Rattle.digit_codes.specs.Reading.{lasso_of};
ghost use Rattle.fraction_codes.specs.Fractions.{IsSmall, floor, IsCommonDenominator, IsTooFine};
ghost use Rattle.fraction_codes.specs.FixedCodes.{IsFixedCode, Encodes, SpellsVector};
ghost use Rattle.fraction_codes.specs.Steps.{IsDigitCount, IsFloorCount, IsWholeWord, sign_distance};

use crate::common::common_denominator;
use crate::division::divide_on;
use crate::parts::{first_rests, floor_distance, sign_vector, whole_rests};
use crate::ratio::{CodeError, Ratio};
use crate::returning::first_return;
use digit_codes::{Base, Lasso, Word};
use lash_io::Memory;
use std::alloc::Global;

/// The fixed code of a vector: its signs, the shortest whole word that has room for all floors, and the letters of the long division
/// of what is above them by the least common denominator, up to the first remainders that are met again and from there to their
/// return. The base to the number of entries is at most 4,096; each denominator is positive, and no part passes 2 ^ 100.
///
/// `Denominator` exactly where the least common denominator passes 65,536; `Memory` where memory is wanting.
pub fn encode(alloc: Global, base: Base, values: &[Ratio]) -> Result<Lasso, CodeError>
    requires few { base ^ length values.now ≤ 4096 }
    requires small { All IsSmall values.now }
    ensures code { IfOk result (λ x. Encodes base values.now (lasso_of x)) }
    ensures vector { IfOk result (λ x. SpellsVector base values.now (lasso_of x)) }
    ensures denominator { IfErr result (λ e. e ≡ CodeError.Denominator → IsTooFine values.now) }
{
    match common_denominator(values) {
        Some(divisor) => match encode_over(alloc, base.radix(), divisor, values) {
            Ok(lasso) => Ok(lasso),
            Err(_) => Err(CodeError::Memory),
        },
        None => Err(CodeError::Denominator),
    }
}

/// The fixed code of a vector over its least common denominator.
fn encode_over(alloc: Global, radix: u32, divisor: u32, values: &[Ratio]) -> Result<Lasso, Memory>
    requires low { 2 ≤ radix }
    requires high { radix ≤ 16 }
    requires few { radix ^ length values.now ≤ 4096 }
    requires small { All IsSmall values.now }
    requires common { IsCommonDenominator values.now divisor }
    requires divisor { divisor ≤ 65536 }
    ensures { IfOk result (λ x. IsFixedCode radix values.now divisor (lasso_of x)) }
{
    let sign = sign_vector(values);
    let whole = whole_word(alloc, radix, values)?;
    let turn = first_return(alloc, radix, divisor)?;
    let mut rests = first_rests(alloc, values, divisor)?;
    let stem = divide_on(alloc, radix, u128::from(divisor), &mut rests, turn.stem)?;
    let cycle = divide_on(alloc, radix, u128::from(divisor), &mut rests, turn.cycle)?;
    Ok(Lasso {
        sign,
        whole,
        stem,
        cycle,
    })
}

/// The shortest word that spells the floors: a power of the base divides the floors, moved up by it where they are negative.
fn whole_word(alloc: Global, radix: u32, values: &[Ratio]) -> Result<Word, Memory>
    requires low { 2 ≤ radix }
    requires high { radix ≤ 16 }
    requires few { radix ^ length values.now ≤ 4096 }
    requires small { All IsSmall values.now }
    ensures { IfOk result (λ w. IsWholeWord radix values.now w) }
{
    let length = whole_length(radix, values);
    let power = u128::from(radix).pow(length);
    let mut rests = whole_rests(alloc, values, power)?;
    divide_on(alloc, radix, power, &mut rests, length)
}

/// The least number of digits that has room for all floors.
fn whole_length(radix: u32, values: &[Ratio]) -> u32
    requires low { 2 ≤ radix }
    requires high { radix ≤ 16 }
    requires small { All IsSmall values.now }
    ensures count { IsFloorCount radix values.now result }
    ensures small { radix ^ result ≤ 2 ^ 104 }
{
    let mut length: u32 = 0;
    for value in values {
        length = length.max(digit_count(radix, floor_distance(value)));
    }
    length
}

/// The least number of digits of a number that is at most 2 ^ 100.
fn digit_count(radix: u32, number: u128) -> u32
    requires low { 2 ≤ radix }
    requires high { radix ≤ 16 }
    requires small { number ≤ 2 ^ 100 }
    ensures count { IsDigitCount radix number result }
    ensures small { radix ^ result ≤ 2 ^ 104 }
{
    let mut power: u128 = 1;
    let mut count = 0;
    while power <= number {
        power *= u128::from(radix);
        count += 1;
    }
    count
}
