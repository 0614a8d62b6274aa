//! How many bits the numbers of a list need: as many as its largest one. Own. One pass over the list.

ghost use Rattle.std.specs.Prelude.{ℕ, ◌^◌, ◌<◌, ◌≤◌, All};

use crate::Cells;

/// The largest number of a list, 0 if it has none.
pub(crate) fn largest<C: Cells>(cells: &C) -> u32
    ensures above { All (λ n. n ≤ result) (C.items cells.now) }
    ensures least { (m : ℕ) → All (λ n. n ≤ m) (C.items cells.now) → result ≤ m }
{
    let mut found = 0;
    for at in 0..cells.len() {
        let number = cells.get(at);
        if number > found {
            found = number;
        }
    }
    found
}

/// The least bits that hold a number, at least 1.
pub(crate) fn least_bits(number: u32) -> u32
    ensures some { 1 ≤ result }
    ensures few { result ≤ 32 }
    ensures holds { number < 2 ^ result }
    ensures least { (bits : ℕ) → 1 ≤ bits → number < 2 ^ bits → result ≤ bits }
{
    if number == 0 {
        return 1;
    }
    32 - number.leading_zeros()
}
