//! Laws of numerals.

ghost use Rattle.std.specs.Prelude.{◌≡◌, ℕ, ◌+◌, ◌*◌, ◌^◌, ◌<◌, ◌≤◌, List, ◌∷◌, [], ◌++◌, decimal};
ghost use Rattle.text_laws.specs.Numerals.{numeral, spelled_after};

/// A numeral spells its number, gets longer by one digit as a number is read, begins no numeral of a smaller number, and is what
/// formatting writes of a number of 64 bits.
pub fn numerals_are_read_back()
    ensures spelled { (n : ℕ) → spelled_after 0 (numeral n) ≡ n }
    ensures longer { (x d : ℕ) → 0 < x → d < 10 → numeral (x * 10 + d) ≡ numeral x ++ (48 + d) ∷ [] }
    ensures begun { (n x : ℕ) (more : List ℕ) → numeral n ≡ numeral x ++ more → x ≤ n }
    ensures written { (n : ℕ) → n < 2 ^ 64 → decimal n ≡ numeral n }
{}
