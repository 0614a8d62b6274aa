//! Laws of powers that come again.

ghost use Rattle.std.specs.Prelude.{◌≡◌, ℕ, Some};
ghost use Rattle.matrix_powers.specs.Matrices.{Square};
ghost use Rattle.matrix_powers.specs.Powers.{HasNoPower, IsLeastPower};
ghost use Rattle.matrix_powers.specs.Trials.{power_of};

/// Trial of the numbers from 1 to 12 finds the least power of a matrix.
pub fn trial_finds_the_least_power()
    ensures { (a : Square) (p : ℕ) → IsLeastPower a p → power_of a ≡ Some p }
{}

/// A matrix has at most one least power, and none if it has no power.
pub fn least_powers_are_unique()
    ensures unique { (a : Square) (p q : ℕ) → IsLeastPower a p → IsLeastPower a q → p ≡ q }
    ensures excluded { (a : Square) (p : ℕ) → IsLeastPower a p → HasNoPower a → ⊥ }
{}
