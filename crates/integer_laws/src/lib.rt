//! Laws of the integers: sums and products, order under positive factors, floors of quotients, reading digits, and vectors.
#![tactic(auto)]

ghost use Rattle.std.specs.Prelude.{◌≡◌, ℕ, suc, ◌*◌, ◌^◌, ◌<◌, List, [], ◌∷◌, ◌++◌, length, ℤ, pos, ◌+ℤ◌, ◌*ℤ◌, ◌≤ℤ◌, ◌<ℤ◌};
ghost use Rattle.std.specs.Int.{int_div_euclid};
ghost use Rattle.integer_laws.specs.Differences.{diff};
ghost use Rattle.integer_laws.specs.Runs.{run, gain};
ghost use Rattle.integer_laws.specs.Vectors.{scale};

/// Products of integers commute, associate and distribute over sums.
pub fn integers_multiply()
    ensures commute { (a b : ℤ) → a *ℤ b ≡ b *ℤ a }
    ensures associate { (a b c : ℤ) → (a *ℤ b) *ℤ c ≡ a *ℤ (b *ℤ c) }
    ensures distribute { (a b c : ℤ) → a *ℤ (b +ℤ c) ≡ (a *ℤ b) +ℤ (a *ℤ c) }
{}

/// A positive factor keeps and reflects order, and reflects equality.
pub fn positive_factors_keep_order()
    ensures keep { (c : ℕ) (x y : ℤ) → x ≤ℤ y → (pos (suc c) *ℤ x) ≤ℤ (pos (suc c) *ℤ y) }
    ensures reflect { (c : ℕ) (x y : ℤ) → (pos (suc c) *ℤ x) ≤ℤ (pos (suc c) *ℤ y) → x ≤ℤ y }
    ensures same { (c : ℕ) (x y : ℤ) → pos (suc c) *ℤ x ≡ pos (suc c) *ℤ y → x ≡ y }
{}

/// The floor of a quotient by a positive number is below an integer exactly where the number is below the product.
pub fn floors_move_over()
    ensures to_product { (z y : ℤ) (r : ℕ) → 0 < r → (int_div_euclid z (pos r)) <ℤ y → z <ℤ (y *ℤ pos r) }
    ensures to_floor { (z y : ℤ) (r : ℕ) → 0 < r → z <ℤ (y *ℤ pos r) → (int_div_euclid z (pos r)) <ℤ y }
{}

/// Runs join, and what a run starts from moves up by the length.
pub fn runs_join_and_shift()
    ensures join { (r : ℕ) (x : ℤ) (ds es : List ℤ) → run r x (ds ++ es) ≡ run r (run r x ds) es }
    ensures shift { (r : ℕ) (x : ℤ) (ds : List ℤ) → run r x ds ≡ (pos (r ^ length ds) *ℤ x) +ℤ run r (pos 0) ds }
{}

/// One turn of a cycle more in the stem, or the cycle's first digit moved to the ends of both, multiplies what a turn adds.
pub fn cycles_turn()
    ensures unroll { (r : ℕ) (x : ℤ) (u v : List ℤ) → gain r x (u ++ v) v ≡ pos (r ^ length v) *ℤ gain r x u v }
    ensures rotate { (r : ℕ) (x : ℤ) (u v : List ℤ) (d : ℤ) → gain r x (u ++ d ∷ []) (v ++ d ∷ []) ≡ pos r *ℤ gain r x u (d ∷ v) }
{}

/// From minus a sign bit, the digit of the sign leads back.
pub fn sign_digits_lead_back()
    ensures { (r s : ℕ) → (pos (suc r) *ℤ diff 0 s) +ℤ pos (r * s) ≡ diff 0 s }
{}

/// Scaling a vector twice is scaling it by the product.
pub fn vectors_scale()
    ensures { (e c : ℕ) (xs : List ℤ) → scale e (scale c xs) ≡ scale (e * c) xs }
{}
