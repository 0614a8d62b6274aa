//! What vectors of fractions have in digits.

ghost use Rattle.std.specs.Prelude.{ℕ, ◌≤◌, ◌<◌, List, ℤ};
ghost use Rattle.lash_model.specs.Lassos.{Lasso};
ghost use Rattle.fraction_codes.specs.FixedCodes.{Encodes, HasLasso};
ghost use Rattle.fraction_codes.specs.Fractions.{IsTooFine};
ghost use Rattle.fraction_codes.specs.declared.ratio.Ratio.{Ratio};

/// Every vector of integers over one positive denominator has a lasso, in each base.
pub fn vectors_have_lassos()
    ensures { (r d : ℕ) (ms : List ℤ) → 2 ≤ r → 0 < d → HasLasso r d ms }
{}

/// A vector has one least common denominator, so one whose least common denominator is too great has no fixed code.
pub fn code_or_too_fine()
    ensures { (r : ℕ) (vs : List Ratio) (x : Lasso) → Encodes r vs x → IsTooFine vs → ⊥ }
{}
