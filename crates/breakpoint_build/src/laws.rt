//! Laws of projections.

ghost use Rattle.std.specs.Prelude.{ℕ, List, ◌≡◌};
ghost use Rattle.lash_model.specs.Tables.{Table, IsTable};
ghost use Rattle.breakpoint_laws.specs.Breakpoints.{IsHeavyRealProjection};
ghost use Rattle.breakpoint_build.specs.RealProjections.{IsRealProjection, IsTornProjection};

/// What is too heavy for the limit, a projection within it, and the words that show that there is none exclude each other, and there is one
/// projection, or one list of words.
pub fn heavy_or_projected()
    ensures projected { (t u : Table) (track limit : ℕ) → IsHeavyRealProjection t track limit → IsRealProjection t track limit u → ⊥ }
    ensures torn { (t : Table) (track limit sign : ℕ) (whole stem accept reject : List ℕ) → IsHeavyRealProjection t track limit
        → IsTornProjection t track limit sign whole stem accept reject → ⊥ }
    ensures weak { (t u : Table) (track limit sign : ℕ) (whole stem accept reject : List ℕ) → IsRealProjection t track limit u
        → IsTornProjection t track limit sign whole stem accept reject → ⊥ }
    ensures one { (t u v : Table) (track limit : ℕ) → IsRealProjection t track limit u → IsRealProjection t track limit v → u ≡ v }
    ensures words { (t : Table) (track limit s1 s2 : ℕ) (w1 w2 p1 p2 a1 a2 r1 r2 : List ℕ) → IsTornProjection t track limit s1 w1 p1 a1 r1
        → IsTornProjection t track limit s2 w2 p2 a2 r2 → (s1 ≡ s2) × ((w1 ≡ w2) × ((p1 ≡ p2) × ((a1 ≡ a2) × (r1 ≡ r2)))) }
{}
