//! The definitions of the product, and their laws: letters, words and lassos, formulas and their meaning, tables, acceptance and
//! standing for a set.
#![tactic(auto)]

ghost use Rattle.std.specs.Prelude.{◌≡◌, ℕ, ◌+◌, ◌*◌, ◌^◌, ◌<◌, ◌≤◌, List, [], ◌∷◌, ◌++◌, length, slice_index, ℤ, pos, negsuc, ◌+ℤ◌, ◌*ℤ◌};
ghost use Rattle.std.specs.List.{AllByRecursion};
ghost use Rattle.integer_laws.specs.Differences.{diff};
ghost use Rattle.integer_laws.specs.Runs.{run, gain};
ghost use Rattle.lash_model.specs.Letters.{digits, number, AreDigits, digit, sign_bit, sign_letter};
ghost use Rattle.lash_model.specs.Words.{value, track_digits, IsBounded, SpellsNumber};
ghost use Rattle.lash_model.specs.Lassos.{Lasso, numerator, denominator};
ghost use Rattle.lash_model.specs.Formulas.{Sort, Formula};
ghost use Rattle.lash_model.specs.Meaning.{Solves};
ghost use Rattle.lash_model.specs.Sets.{IsOfFractions, KeepsScale, set_of, bound_at, bound_by_fraction};
ghost use Rattle.lash_model.specs.Tables.{Table, letters};
ghost use Rattle.lash_model.specs.Acceptance.{int_state};

/// The expansion of a letter is the one list of so many digits below the base whose number is the letter.
pub fn letters_are_their_digits()
    ensures digits { (r n l : ℕ) → 0 < r → l < r ^ n → AreDigits r n (digits r n l) × (number r (digits r n l) ≡ l) }
    ensures unique { (r n : ℕ) (ds : List ℕ) → AreDigits r n ds → digits r n (number r ds) ≡ ds }
{}

/// A letter at the end makes the base times the value, plus the letter's digit.
pub fn letters_are_read_in_turn()
    ensures { (r n i sign : ℕ) (w : List ℕ) (l : ℕ) → value r n i sign (w ++ l ∷ []) ≡ (pos r *ℤ value r n i sign w) +ℤ pos (digit r n i l) }
{}

/// A value is the run over the track's digits from minus the sign bit.
pub fn values_are_runs()
    ensures { (r n i sign : ℕ) (w : List ℕ) → value r n i sign w ≡ run r (diff 0 (sign_bit n i sign)) (track_digits r n i w) }
{}

/// The letter of the sign digits, put in front of a word, changes no value.
pub fn sign_letters_are_idle()
    ensures { (r n i sign : ℕ) (w : List ℕ) → 2 ≤ r → i < n → sign < 2 ^ n → value r n i sign (sign_letter r n sign ∷ w) ≡ value r n i sign w }
{}

/// A value with sign bit 0 is at least 0 and below the base to the word's length; one with sign bit 1 is below 0, and at least minus
/// that power.
pub fn values_are_bounded()
    ensures { (r n i sign : ℕ) (w : List ℕ) → 0 < r → i < n → AllByRecursion (λ l. l < r ^ n) w → IsBounded r (length w) (sign_bit n i sign) (value r n i sign w) }
{}

/// Each number from minus a power of the base up to that power has a word of that length on one track.
pub fn numbers_have_words()
    ensures natural { (r k n : ℕ) → 0 < r → n < r ^ k → SpellsNumber r k (pos n) }
    ensures negative { (r k n : ℕ) → 0 < r → n < r ^ k → SpellsNumber r k (negsuc n) }
{}

/// A lasso's numerator is what one turn of its cycle adds to the run over its whole part and stem, and its denominator is the
/// difference of two powers.
pub fn lassos_are_differences()
    ensures numerator { (r n i : ℕ) (x : Lasso) → 0 < r → numerator r n i x ≡ gain r (diff 0 (sign_bit n i x.sign)) (track_digits r n i (x.whole ++ x.stem)) (track_digits r n i x.cycle) }
    ensures denominator { (r : ℕ) (x : Lasso) → 0 < r → denominator r x + r ^ length x.stem ≡ r ^ length x.stem * r ^ length x.cycle }
{}

/// A set does not tell fractions from the same fractions over a multiple of their denominator.
pub fn sets_are_of_fractions()
    ensures { (sorts : List Sort) (f : Formula) → IsOfFractions (Solves sorts f) }
{}

/// Neither does the set of a formula whose numerators stand elsewhere, if they are multiplied there as they are here.
pub fn placed_sets_are_of_fractions()
    ensures { (f : Formula) (placed : List ℤ → List ℤ) → KeepsScale placed → IsOfFractions (set_of f placed) }
{}

/// Neither does such a set in which an entry is bound, by a whole number or by a fraction.
pub fn bound_sets_are_of_fractions()
    ensures whole { (f : Formula) (placed : List ℤ → List ℤ) (track : ℕ) → IsOfFractions (set_of f placed) → IsOfFractions (bound_at track (set_of f placed)) }
    ensures fraction { (f : Formula) (placed : List ℤ → List ℤ) (track : ℕ) → IsOfFractions (set_of f placed) → IsOfFractions (bound_by_fraction track (set_of f placed)) }
{}

/// The integer state after no letter is the root of the sign vector, and a letter at the end leads on by the row of the state before it.
pub fn states_are_read_in_turn()
    ensures root { (t : Table) (sign : ℕ) → int_state t sign [] ≡ slice_index t.roots sign }
    ensures letter { (t : Table) (sign : ℕ) (w : List ℕ) (l : ℕ) → int_state t sign (w ++ l ∷ []) ≡ slice_index t.rows (int_state t sign w * letters t + l) }
{}
