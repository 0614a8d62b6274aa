//! Laws of projections.

ghost use Rattle.std.specs.Prelude.{◌≡◌, ℕ, ◌+◌, ◌<◌, ◌↔◌, IsTrue, List, length, ℤ};
ghost use Rattle.lash_model.specs.Acceptance.{accepts_marked};
ghost use Rattle.lash_model.specs.Formulas.{Sort, Formula};
ghost use Rattle.lash_model.specs.Lassos.{Lasso, IsLasso};
ghost use Rattle.lash_model.specs.Meaning.{holds, Solves};
ghost use Rattle.lash_model.specs.Sets.{set_of, bound_by_fraction, KeepsScale};
ghost use Rattle.lash_model.specs.Standing.{StandsForMixed};
ghost use Rattle.lash_model.specs.Tables.{Table, letters, fracs, IsTable};
ghost use Rattle.part_laws.specs.CanonicalMixed.{fraction_graph};
ghost use Rattle.part_laws.specs.Graphs.{IsWeak};
ghost use Rattle.marked_laws.specs.Weakening.{StandsForMarked};
ghost use Rattle.breakpoint_laws.specs.Breakpoints.{IsBreakpointTable, IsHeavyRealProjection, IsLassoAcceptedOver, AcceptsSomeLasso};
ghost use Rattle.breakpoint_laws.specs.Breakpoints.{is_key, step_of_key, entry_key, exists_real, exists_int, holds_whole};

/// If a weak table stands for a set, its breakpoint table stands, by its marks, for the set in which the track is bound by a fraction.
pub fn breakpoint_tables_project()
    ensures formulas { (t u : Table) (track limit : ℕ) (f : Formula) (placed : List ℤ → List ℤ) → IsTable t → IsTable u → track < t.tracks
        → IsWeak (letters t) (fraction_graph t) → IsBreakpointTable t track limit u → KeepsScale placed
        → StandsForMixed t (set_of f placed) → StandsForMarked u (bound_by_fraction track (set_of f placed)) }
    ensures wholes { (t u : Table) (track limit place : ℕ) (f : Formula) → IsTable t → IsTable u → track < t.tracks
        → IsWeak (letters t) (fraction_graph t) → IsBreakpointTable t track limit u → StandsForMixed t (holds_whole f place)
        → StandsForMarked u (bound_by_fraction track (holds_whole f place)) }
{}

/// The breakpoint table of a weak table accepts a lasso, by its marks, exactly if the weak table accepts some lasso of all tracks over it.
/// An automaton that accepts so stands for the set in which the track is bound by a fraction.
pub fn breakpoint_tables_complete()
    ensures lassos { (t u : Table) (track limit : ℕ) → IsTable t → IsTable u → 0 < fracs t → track < t.tracks → IsWeak (letters t) (fraction_graph t)
        → IsBreakpointTable t track limit u → (x : Lasso) → IsLasso u.base u.tracks x → IsTrue (accepts_marked u x) ↔ IsLassoAcceptedOver t track x }
    ensures stands { (t u : Table) (track : ℕ) (f : Formula) (placed : List ℤ → List ℤ) → IsTable t → IsTable u → 0 < fracs u
        → track < t.tracks → u.base ≡ t.base → u.tracks + 1 ≡ t.tracks → AcceptsSomeLasso t track u → KeepsScale placed
        → StandsForMixed t (set_of f placed) → StandsForMixed u (bound_by_fraction track (set_of f placed)) }
{}

/// A weak table has one breakpoint table for each track.
pub fn breakpoint_tables_are_one()
    ensures { (t u v : Table) (track limit : ℕ) → IsTable u → IsTable v → IsBreakpointTable t track limit u → IsBreakpointTable t track limit v → u ≡ v }
{}

/// The key after a key of rising lists of states and a letter is again one, and the key of an entry is one.
pub fn keys_stay_proper()
    ensures step { (t : Table) (track letter : ℕ) (key : List ℕ) → IsTrue (is_key (fracs t) (step_of_key t track key letter)) }
    ensures entry { (t : Table) (set : List ℕ) → IsTrue (is_key (fracs t) (entry_key t set)) }
{}

/// What is too heavy for the limit and a breakpoint table within it exclude each other.
pub fn heavy_or_breakpoints()
    ensures { (t u : Table) (track limit : ℕ) → IsHeavyRealProjection t track limit → IsBreakpointTable t track limit u → ⊥ }
{}

/// A real variable that is bound is a fraction after the others.
pub fn bound_reals_are_last()
    ensures { (f : Formula) (ns : List ℤ) (d : ℕ) → bound_by_fraction (length ns) (holds f) ns d ↔ holds (exists_real f) ns d }
{}

/// An integer variable that is bound is a fraction after the others that is whole.
pub fn bound_integers_are_last()
    ensures { (f : Formula) (ns : List ℤ) (d : ℕ) → bound_by_fraction (length ns) (holds_whole f (length ns)) ns d ↔ holds (exists_int f) ns d }
{}
