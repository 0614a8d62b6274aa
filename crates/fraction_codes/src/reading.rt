//! Fractions read back from lassos. What is spelled is read up to the point, the stem's end and the end of one cycle; the
//! differences of the last two are a numerator and a denominator. Own.

ghost use Rattle.std.specs.Prelude.{◌≡◌, ℕ, ◌+◌, ◌*◌, ◌^◌, ◌<◌, ◌≤◌, ◌↔◌, List, All, length, Bool, true, false, neg_ℤ, pos, nat_eq, IfSome, IfNone, IsNone, SomeIff, unsigned_abs};
ghost use Rattle.lash_model.specs.Letters.{sign_bit};
ghost use Rattle.lash_model.specs.Words.{spelled};
ghost use Rattle.lash_model.specs.Lassos.{IsLasso};
ghost use Rattle.digit_codes.specs.Reading.{lasso_of};
ghost use Rattle.fraction_codes.specs.Reading.{IsValue};
ghost use Rattle.fraction_codes.specs.Steps.{IsReadOn, IsTurned, IsLowest, turned, signed};

use crate::common::greatest_divisor;
use crate::ratio::Ratio;
use crate::signs::{sign_digit, signed};
use digit_codes::{Base, Lasso, letter_digit};

/// The greatest power of the base whose digits are read.
const MAX_POWER: u128 = 1 << 100;

/// What the digits of a track spell so far, and the base to the power of their number.
#[derive(Clone, Copy)]
struct Spelled {
    power: u128,
    number: u128,
}

/// The fraction of a track, in lowest terms, with a positive denominator. The lasso is one over the tracks, and the base to their
/// number is at most 4,096.
///
/// None exactly where the base to the number of all letters passes 2 ^ 100.
pub fn value(lasso: &Lasso, base: Base, tracks: u32, track: u32) -> Option<Ratio>
    requires track { track < tracks }
    requires few { base ^ tracks ≤ 4096 }
    requires lasso { IsLasso base tracks (lasso_of lasso.now) }
    ensures value { IfSome result (λ v. IsValue base tracks track (lasso_of lasso.now) v) }
    ensures long { IsNone result ↔ (2 ^ 100 < base ^ (length lasso.now.whole + length lasso.now.stem + length lasso.now.cycle)) }
{
    if !is_short(base.radix(), lasso) {
        return None;
    }
    let start = Spelled {
        power: 1,
        number: 0,
    };
    let point = read_on(&start, base, tracks, lasso.whole.letters(), track);
    let stem = read_on(&point, base, tracks, lasso.stem.letters(), track);
    let end = read_on(&stem, base, tracks, lasso.cycle.letters(), track);
    let negative = sign_digit(lasso.sign, tracks, track) == 1;
    let den = (end.power - stem.power) / point.power;
    Some(lowest(negative, numerator(negative, &stem, &end), den))
}

/// Whether the base to the number of all letters is at most 2 ^ 100.
fn is_short(radix: u32, lasso: &Lasso) -> bool
    requires low { 2 ≤ radix }
    requires high { radix ≤ 16 }
    ensures short { result ≡ true → radix ^ (length lasso.now.whole + length lasso.now.stem + length lasso.now.cycle) ≤ 2 ^ 100 }
    ensures long { result ≡ false → 2 ^ 100 < radix ^ (length lasso.now.whole + length lasso.now.stem + length lasso.now.cycle) }
{
    let whole = lasso.whole.letters().len() as u128;
    let stem = lasso.stem.letters().len() as u128;
    let cycle = lasso.cycle.letters().len() as u128;
    let mut power: u128 = 1;
    for _place in 0..whole + stem + cycle {
        power *= u128::from(radix);
        if power > MAX_POWER {
            return false;
        }
    }
    true
}

/// What the digits of a track spell in a word, read on.
fn read_on(from: &Spelled, base: Base, tracks: u32, word: &[u32], track: u32) -> Spelled
    requires track { track < tracks }
    requires few { base ^ tracks ≤ 4096 }
    requires letters { All (λ l. l < base ^ tracks) word.now }
    requires below { from.now.number < from.now.power }
    requires room { from.now.power * base ^ length word.now ≤ 2 ^ 100 }
    ensures { IsReadOn base tracks track word.now from.now result }
{
    let mut to = *from;
    for letter in word {
        let digit = letter_digit(base, tracks, *letter, track);
        to = Spelled {
            power: to.power * u128::from(base.radix()),
            number: to.number * u128::from(base.radix()) + u128::from(digit),
        };
    }
    to
}

/// The magnitude of the numerator.
fn numerator(negative: bool, stem: &Spelled, end: &Spelled) -> u128
    requires { IsTurned stem.now end.now }
    ensures value { signed negative result ≡ turned negative stem.now end.now }
    ensures small { result ≤ 2 ^ 100 }
{
    let gained = end.number - stem.number;
    if negative {
        end.power - stem.power - gained
    } else {
        gained
    }
}

/// The fraction of a numerator, by sign and magnitude, and a positive denominator, in lowest terms.
fn lowest(negative: bool, num: u128, den: u128) -> Ratio
    requires num { num ≤ 2 ^ 100 }
    requires positive { 0 < den }
    requires den { den ≤ 2 ^ 100 }
    ensures { IsLowest (signed negative num) den result }
{
    let divisor = greatest_divisor(num, den);
    Ratio {
        num: signed(negative, num / divisor),
        den: (den / divisor) as i128,
    }
}
