//! What the digits of letters add to a linear term: the sum of coefficient times digit, for each letter once.

ghost use Rattle.std.specs.Prelude.{◌≡◌, ℕ, ℤ, pos, ◌+◌, ◌-◌, ◌*◌, ◌^◌, ◌<◌, ◌≤◌, ◌+ℤ◌, ◌*ℤ◌, List, length, All, unsigned_abs, IfOk, IfErr};
ghost use Rattle.lash_model.specs.Formulas.{coefficient_sum};
ghost use Rattle.threshold_laws.specs.Thresholds.{letter_total};
ghost use Rattle.linear_atoms.specs.Closing.{IsSmallTotal};
ghost use Rattle.linear_atoms.specs.Totals.{AreTotals};

use digit_codes::{Base, letter_digit};
use formula_core::Linear;
use std::alloc::Global;
use step_tables::BuildError;

/// The sum with one coefficient times a digit more.
fn with_product(sum: &i128, coefficient: &i128, digit: u32) -> i128
    requires sum { unsigned_abs sum.now ≤ 2 ^ 28 }
    requires coefficient { unsigned_abs coefficient.now ≤ 2 ^ 24 }
    requires digit { digit < 16 }
    ensures { result ≡ sum.now +ℤ (coefficient.now *ℤ pos digit) }
{
    *sum + *coefficient * i128::from(digit)
}

/// The sum of coefficient times the digit at its place.
pub fn digits_total(base: Base, tracks: u32, atom: &Linear, letter: u32) -> i128
    requires places { All (λ t. t.0 < tracks) atom.now.terms }
    requires coefficients { coefficient_sum atom.now.terms ≤ 2 ^ 24 }
    requires letter { letter < base ^ tracks }
    requires few { base ^ tracks ≤ 4096 }
    requires low { 2 ≤ base }
    requires high { base ≤ 16 }
    ensures total { result ≡ letter_total atom.now.terms base tracks letter }
    ensures small { IsSmallTotal base result }
{
    let mut sum = 0;
    for term in atom.terms() {
        let digit = letter_digit(base, tracks, letter, term.0);
        sum = with_product(&sum, &term.1, digit);
    }
    sum
}

/// The totals of all letters, rising.
pub fn letter_totals(
    alloc: Global,
    base: Base,
    tracks: u32,
    atom: &Linear,
) -> Result<Vec<i128>, BuildError>
    requires places { All (λ t. t.0 < tracks) atom.now.terms }
    requires coefficients { coefficient_sum atom.now.terms ≤ 2 ^ 24 }
    requires few { base ^ tracks ≤ 4096 }
    requires low { 2 ≤ base }
    requires high { base ≤ 16 }
    ensures totals { IfOk result (λ v. AreTotals atom.now.terms base tracks v.items) }
    ensures small { IfOk result (λ v. All (IsSmallTotal base) v.items) }
    ensures never { IfErr result (λ e. e ≡ BuildError.Memory) }
{
    let mut totals = Vec::new(alloc);
    for letter in 0..base.radix().pow(tracks) {
        match totals.push(digits_total(base, tracks, atom, letter)) {
            Ok(()) => {}
            Err(_) => return Err(BuildError::Memory),
        }
    }
    Ok(totals)
}
