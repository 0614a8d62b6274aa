//! What closures mean.

ghost use Rattle.std.specs.Prelude.{◌≡◌, ◌<◌, ◌↔◌, ◌+◌, ◌*◌, ◌++◌, ◌∷◌, [], ℕ, List, length, true, false, ℤ, pos};
ghost use Rattle.lash_model.specs.Meaning.{holds};
ghost use Rattle.matrix_powers.specs.Powers.{IsPower};
ghost use Rattle.loop_laws.specs.Turns.{Body, IsGuard, after};
ghost use Rattle.loop_laws.specs.Closures.{closure_of};

/// The closure of a loop holds of two vectors exactly where some number of turns leads from the first to the second.
pub fn closure_joins_turns()
    ensures { (l : Body) (p : ℕ) (x y : List ℤ) (d : ℕ) → 0 < p → IsPower l.matrix p → IsGuard l.guard → length x ≡ l.matrix.side → length y ≡ l.matrix.side → 0 < d → holds (closure_of false l p) (x ++ y) d ↔ ((k : ℕ) × after l d k x y) }
{}

/// The counted closure holds of two vectors and a number exactly where so many turns lead from the first to the second.
pub fn counted_closure_counts_turns()
    ensures { (l : Body) (p : ℕ) (x y : List ℤ) (count : ℤ) (d : ℕ) → 0 < p → IsPower l.matrix p → IsGuard l.guard → length x ≡ l.matrix.side → length y ≡ l.matrix.side → 0 < d → holds (closure_of true l p) (x ++ y ++ count ∷ []) d ↔ ((k : ℕ) × ((count ≡ pos (k * d)) × after l d k x y)) }
{}
