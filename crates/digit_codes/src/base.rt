//! The base of an encoding.

ghost use Rattle.std.specs.Prelude.{◌≡◌, ℕ, ◌<◌, ◌≤◌, ◌↔◌, IsSome, IfSome};

use std::marker::Model;

/// The base in which digits are written: a number from 2 to 16.
#[derive(Clone, Copy, Debug, PartialEq, Eq)]
pub struct Base {
    radix: u32,
}

impl Model for Base {
    ghost Value = { ℕ };

    ghost view = { λ b. b.radix };

    ghost invariant = { λ b. (1 < b.radix) × (b.radix < 17) };

    ghost inverse = { λ n. record { radix = n } };
}

impl Base {
    /// The base of a radix; None exactly where the radix is outside 2 to 16.
    pub fn new(radix: u32) -> Option<Base>
        ensures valid { IsSome result ↔ ((2 ≤ radix) × (radix ≤ 16)) }
        ensures value { IfSome result (λ b. b ≡ radix) }
    {
        if radix < 2 || radix > 16 {
            return None;
        }
        Some(Base { radix })
    }

    /// The radix, a number from 2 to 16.
    pub fn radix(&self) -> u32
        ensures value { result ≡ self.now }
        ensures low { 2 ≤ self.now }
        ensures high { self.now ≤ 16 }
    {
        self.radix
    }
}
