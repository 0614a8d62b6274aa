//! Long division of several numbers by one divisor, in step.

ghost use Rattle.std.specs.Prelude.{◌≡◌, ℕ, ◌+◌, ◌*◌, ◌^◌, ◌<◌, ◌≤◌, List, All, length, IfOk, OnOk};
ghost use Rattle.fraction_codes.specs.LongDivision.{next_letter, next_rests, rests_after, letters_of};

use digit_codes::Word;
use lash_io::Memory;
use std::alloc::Global;

/// One step: the letter of the quotients, with the next remainders in the place of the last.
fn divide_once(radix: u32, divisor: u128, rests: &mut [u128]) -> u32
    requires low { 2 ≤ radix }
    requires high { radix ≤ 16 }
    requires divisor { divisor ≤ 2 ^ 104 }
    requires below { All (λ p. p < divisor) rests.old }
    requires few { radix ^ length rests.old ≤ 4096 }
    ensures letter { result ≡ next_letter radix divisor rests.old }
    ensures rests { rests.new ≡ next_rests radix divisor rests.old }
    ensures below { All (λ p. p < divisor) rests.new }
{
    let mut letter = 0;
    for rest in rests.iter_mut() {
        let scaled = u128::from(radix) * *rest;
        letter = letter * radix + (scaled / divisor) as u32;
        *rest = scaled % divisor;
    }
    letter
}

/// The letters of so many steps, with the remainders behind them in the place of the first.
pub(crate) fn divide_on(
    alloc: Global,
    radix: u32,
    divisor: u128,
    rests: &mut [u128],
    steps: u32,
) -> Result<Word, Memory>
    requires low { 2 ≤ radix }
    requires high { radix ≤ 16 }
    requires divisor { divisor ≤ 2 ^ 104 }
    requires below { All (λ p. p < divisor) rests.old }
    requires few { radix ^ length rests.old ≤ 4096 }
    ensures letters { IfOk result (λ w. w ≡ letters_of radix divisor steps rests.old) }
    ensures rests { OnOk result (rests.new ≡ rests_after radix divisor steps rests.old) }
    ensures below { All (λ p. p < divisor) rests.new }
{
    let mut word = Word::empty(alloc);
    for _step in 0..steps {
        word.push(divide_once(radix, divisor, rests))?;
    }
    Ok(word)
}
