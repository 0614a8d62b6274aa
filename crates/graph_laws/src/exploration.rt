//! Laws of exploration.

ghost use Rattle.std.specs.Prelude.{◌≡◌, ◌+◌, ◌-◌, ◌*◌, ◌<◌, ◌≤◌, ℕ, List, [], ◌∷◌, length, slice_get, Some};
ghost use Rattle.std.specs.List.{AllByRecursion};
ghost use Rattle.graph_laws.specs.Walks.{go};
ghost use Rattle.graph_laws.specs.Paths.{path_at};
ghost use Rattle.graph_laws.specs.Exploring.{Steps, KeyTable, IsReached, IsHeavy, IsHeavyInTwo, IsExplored, IsExploredInTwo, led, led_by, position};

/// Heavy and explored exclude each other.
pub fn heavy_or_explored()
    ensures { (m : Steps) (limit : ℕ) (t : KeyTable) → IsHeavy m limit → IsExplored m limit t → ⊥ }
{}

/// Keys that are states, with no weight of their own, are never heavy where all rows fit.
pub fn no_heavy_on_states()
    ensures { (m : Steps) (n limit : ℕ) → ((k : List ℕ) → m.weight k ≡ 0) → ((k : List ℕ) → IsReached m k → (q : ℕ) × (q < n) × (k ≡ q ∷ [])) → n * (m.width + 1) ≤ limit → IsHeavy m limit → ⊥ }
{}

/// The position after a word holds the key after the word.
pub fn positions_follow_keys()
    ensures { (m : Steps) (limit : ℕ) (t : KeyTable) → IsExplored m limit t → (q : ℕ) (k w : List ℕ) → AllByRecursion (λ l. l < t.width) w → slice_get t.keys q ≡ Some k → slice_get t.keys (go t.rows t.width q w) ≡ Some (led m.step k w) }
{}

/// If the first of two explorations is heavy, both together are.
pub fn first_of_two()
    ensures { (a : Steps) (lead : List ℕ → List ℕ) (b : Steps) (limit : ℕ) → IsHeavy a limit → IsHeavyInTwo a lead b limit }
{}

/// If the second of two explorations is heavy at what the first left of the limit, both together are.
pub fn second_of_two()
    ensures { (a : Steps) (lead : List ℕ → List ℕ) (b : Steps) (limit : ℕ) (t : KeyTable) → IsExplored a limit t → IsHeavy (led_by lead b t.keys) (limit - t.cells) → IsHeavyInTwo a lead b limit }
{}

/// Heavy in two and explored in two exclude each other.
pub fn both_explored()
    ensures { (a : Steps) (lead : List ℕ → List ℕ) (b : Steps) (limit : ℕ) (t u : KeyTable) → IsHeavyInTwo a lead b limit → IsExploredInTwo a lead b limit t u → ⊥ }
{}

/// The path that is listed for a position leads to that position.
pub fn paths_lead_home()
    ensures { (m : Steps) (limit : ℕ) (t : KeyTable) (e : IsExplored m limit t) (i : ℕ) → i < length t.keys → position t (path_at e.paths i) ≡ i }
{}
