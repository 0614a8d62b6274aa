//! The parts of fractions, as natural numbers: the floor is told by its distance from the first integer of its sign, 0 or -1. Own.

ghost use Rattle.std.specs.Prelude.{◌≡◌, ℕ, ◌+◌, ◌-◌, ◌*◌, ◌/◌, ◌^◌, ◌<◌, ◌≤◌, length, List, All, map, unsigned_abs, IfOk};
ghost use Rattle.lash_model.specs.Letters.{number};
ghost use Rattle.fraction_codes.specs.Fractions.{IsSmall, sign_of, floor, above_floor, IsWholeTimes};
ghost use Rattle.fraction_codes.specs.FixedCodes.{first_rest};
ghost use Rattle.fraction_codes.specs.Steps.{sign_distance, raised};

use crate::ratio::Ratio;
use lash_io::Memory;
use std::alloc::Global;

/// The denominator.
pub(crate) fn denominator(value: &Ratio) -> u128
    requires { IsSmall value.now }
    ensures value { result ≡ unsigned_abs value.now.den }
    ensures positive { 0 < result }
    ensures small { result ≤ 2 ^ 100 }
{
    value.den.unsigned_abs()
}

/// The magnitude of the numerator.
pub(crate) fn num_magnitude(value: &Ratio) -> u128
    requires { IsSmall value.now }
    ensures { result ≡ unsigned_abs value.now.num }
{
    value.num.unsigned_abs()
}

/// The distance of the numerator from the first integer of its sign.
fn num_distance(value: &Ratio) -> u128
    requires { IsSmall value.now }
    ensures value { result ≡ sign_distance value.now.num }
    ensures small { result ≤ 2 ^ 100 }
{
    if value.num < 0 {
        (value.num + 1).unsigned_abs()
    } else {
        value.num.unsigned_abs()
    }
}

/// The distance of the floor from the first integer of its sign.
pub(crate) fn floor_distance(value: &Ratio) -> u128
    requires { IsSmall value.now }
    ensures value { result ≡ sign_distance (floor value.now) }
    ensures small { result ≤ 2 ^ 100 }
{
    num_distance(value) / denominator(value)
}

/// The numerator of what is above the floor, over the fraction's denominator.
fn above_floor(value: &Ratio) -> u128
    requires { IsSmall value.now }
    ensures value { result ≡ above_floor value.now }
    ensures below { result < unsigned_abs value.now.den }
{
    let den = denominator(value);
    let left = num_distance(value) % den;
    if value.num < 0 { den - 1 - left } else { left }
}

/// What is above the floor, times a divisor by which the fraction becomes an integer.
fn first_rest(value: &Ratio, divisor: u32) -> u128
    requires small { IsSmall value.now }
    requires positive { 0 < divisor }
    requires divisor { divisor ≤ 65536 }
    requires whole { IsWholeTimes divisor value.now }
    ensures value { result ≡ first_rest divisor value.now }
    ensures below { result < divisor }
{
    above_floor(value) * u128::from(divisor) / denominator(value)
}

/// The floor, moved up by a power of the base where it is negative.
fn whole_rest(value: &Ratio, power: u128) -> u128
    requires small { IsSmall value.now }
    requires room { sign_distance (floor value.now) < power }
    ensures value { result ≡ raised power (floor value.now) }
    ensures below { result < power }
{
    let distance = floor_distance(value);
    if value.num < 0 {
        power - 1 - distance
    } else {
        distance
    }
}

/// What is above the floors, times the divisor.
pub(crate) fn first_rests(
    alloc: Global,
    values: &[Ratio],
    divisor: u32,
) -> Result<Vec<u128>, Memory>
    requires small { All IsSmall values.now }
    requires positive { 0 < divisor }
    requires divisor { divisor ≤ 65536 }
    requires whole { All (IsWholeTimes divisor) values.now }
    ensures value { IfOk result (λ v. v.items ≡ map (first_rest divisor) values.now) }
    ensures below { IfOk result (λ v. All (λ p. p < divisor) v.items) }
{
    let mut rests = Vec::new(alloc);
    for value in values {
        match rests.push(first_rest(value, divisor)) {
            Ok(()) => {}
            Err(_) => return Err(Memory),
        }
    }
    Ok(rests)
}

/// The floors, the negative ones moved up by the power.
pub(crate) fn whole_rests(alloc: Global, values: &[Ratio], power: u128) -> Result<Vec<u128>, Memory>
    requires small { All IsSmall values.now }
    requires room { All (λ v. sign_distance (floor v) < power) values.now }
    ensures value { IfOk result (λ v. v.items ≡ map (λ v. raised power (floor v)) values.now) }
    ensures below { IfOk result (λ v. All (λ p. p < power) v.items) }
{
    let mut rests = Vec::new(alloc);
    for value in values {
        match rests.push(whole_rest(value, power)) {
            Ok(()) => {}
            Err(_) => return Err(Memory),
        }
    }
    Ok(rests)
}

/// The sign of a fraction: 1 where it is negative.
fn sign_of(value: &Ratio) -> u32
    ensures value { result ≡ sign_of value.now.num }
    ensures below { result < 2 }
{
    if value.num < 0 { 1 } else { 0 }
}

/// The sign vector: the first entry's sign is the highest bit.
pub(crate) fn sign_vector(values: &[Ratio]) -> u32
    requires { 2 ^ length values.now ≤ 4096 }
    ensures { result ≡ number 2 (map (λ v. sign_of v.num) values.now) }
{
    let mut sign = 0;
    for value in values {
        sign = sign * 2 + sign_of(value);
    }
    sign
}
