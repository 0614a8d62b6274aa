//! Laws of projections.

ghost use Rattle.std.specs.Prelude.{ℕ, List, ◌≡◌};
ghost use Rattle.lash_model.specs.Tables.{Table};
ghost use Rattle.subset_build.specs.Projection.{AreStartSets, IsSubsetTable, IsHeavyProjection};

/// A diagram has one list of start sets for each track.
pub fn start_sets_are_unique()
    ensures { (t : Table) (track : ℕ) (xs ys : List (List ℕ)) → AreStartSets t track xs → AreStartSets t track ys → xs ≡ ys }
{}

/// Sets of states that are too heavy for the limit and a table of the sets within the limit exclude each other.
pub fn heavy_or_subsets()
    ensures { (t : Table) (track limit : ℕ) (u : Table) → IsHeavyProjection t track limit → IsSubsetTable t track limit u → ⊥ }
{}
