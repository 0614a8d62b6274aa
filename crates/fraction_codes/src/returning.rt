//! Where the remainders of a long division return. The remainders after k steps are the first ones times r ^ k, over the divisor;
//! with the least common denominator as the divisor they are equal exactly where the powers of r are, so one number is followed in
//! place of the vector. Own.

ghost use Rattle.std.specs.Prelude.{◌≡◌, ℕ, ◌+◌, ◌*◌, ◌^◌, ◌<◌, ◌≤◌, IfOk, replicate};
ghost use Rattle.fraction_codes.specs.Steps.{IsPowerTurn};

use lash_io::Memory;
use std::alloc::Global;

/// The lengths of a stem and of a cycle.
#[derive(Clone, Copy)]
pub(crate) struct Turn {
    pub(crate) stem: u32,
    pub(crate) cycle: u32,
}

/// A list of so many zeros.
fn zeros(alloc: Global, count: u32) -> Result<Vec<u32>, Memory>
    requires { count ≤ 65536 }
    ensures { IfOk result (λ v. v.items ≡ replicate count 0) }
{
    match vec![in alloc; 0; count as usize] {
        Ok(list) => Ok(list),
        Err(_) => Err(Memory),
    }
}

/// The place of the first power of the radix, over the divisor, that is met again, and after how many steps it is.
pub(crate) fn first_return(alloc: Global, radix: u32, divisor: u32) -> Result<Turn, Memory>
    requires high { radix ≤ 16 }
    requires divisor { 0 < divisor }
    requires small { divisor ≤ 65536 }
    ensures { IfOk result (λ t. IsPowerTurn radix divisor t) }
{
    // For each power, one more than its first place; 0 where it was not met.
    let mut met = zeros(alloc, divisor)?;
    let mut power = 1 % divisor;
    let mut place = 0;
    while met[power as usize] == 0 {
        place += 1;
        met[power as usize] = place;
        power = power * radix % divisor;
    }
    let stem = met[power as usize] - 1;
    Ok(Turn {
        stem,
        cycle: place - stem,
    })
}
