//! Laws of weakening.

ghost use Rattle.std.specs.Prelude.{◌≡◌, ℕ, ◌<◌, List, ◌++◌, ℤ};
ghost use Rattle.lash_model.specs.Formulas.{Sort, Formula};
ghost use Rattle.lash_model.specs.Meaning.{Solves};
ghost use Rattle.lash_model.specs.Sets.{set_of, bound_by_fraction};
ghost use Rattle.lash_model.specs.Standing.{StandsForMixed};
ghost use Rattle.lash_model.specs.Tables.{Table, letters, fracs, IsTable};
ghost use Rattle.part_laws.specs.CanonicalMixed.{fraction_graph};
ghost use Rattle.part_laws.specs.Graphs.{IsWeak};
ghost use Rattle.marked_laws.specs.TornTables.{AreTornWords};
ghost use Rattle.marked_laws.specs.Weakening.{StandsForMarked, IsLedTo, IsClearLoop, IsMarkedLoop};
ghost use Rattle.marked_laws.specs.Weakening.{IsTornAt, IsTorn, IsWeakForm, AcceptsAsMarked, ShowsNotWeak, AreShown};

/// If no reached part is torn, the table with the colours of its parts is weak, and accepts what the marked table accepts.
pub fn part_colours_weaken()
    ensures weak { (t u : Table) → IsTable t → IsWeakForm t u → IsWeak (letters u) (fraction_graph u) }
    ensures table { (t u : Table) → IsTable t → IsWeakForm t u → IsTable u }
    ensures accepts { (t u : Table) → IsTable t → 0 < fracs t → IsWeakForm t u → (IsTorn t → ⊥) → AcceptsAsMarked t u }
    ensures stands { (t u : Table) (f : Formula) (placed : List ℤ → List ℤ) (track : ℕ) → IsTable t → IsWeakForm t u → (IsTorn t → ⊥)
        → StandsForMarked t (bound_by_fraction track (set_of f placed)) → StandsForMixed u (bound_by_fraction track (set_of f placed)) }
{}

/// A loop that meets no mark and one that meets a mark, at a state that is reached, show that the set is not weak; a torn state has such
/// loops, and so do the words of a torn table.
pub fn torn_parts_show_words()
    ensures words { (t : Table) (f : Formula) (placed : List ℤ → List ℤ) (track sign q : ℕ) (whole stem accept reject : List ℕ) → IsTable t
        → StandsForMarked t (bound_by_fraction track (set_of f placed)) → IsLedTo t sign whole stem q → IsClearLoop t q accept → IsMarkedLoop t q reject
        → ShowsNotWeak (bound_by_fraction track (set_of f placed)) t.base t.tracks sign whole stem accept reject }
    ensures torn { (t : Table) (q : ℕ) (o : IsTornAt t q) → IsMarkedLoop t q (o.word ++ (o.there.word ++ o.back.word)) }
    ensures shown { (t : Table) (sign : ℕ) (whole stem accept reject : List ℕ) → IsTable t → AreTornWords t sign whole stem accept reject
        → AreShown t.base t.tracks sign whole stem accept reject }
{}

/// A torn table accepts by its marks what no weak table accepts, so its weak form accepts something else.
pub fn torn_or_weak_form()
    ensures { (t u : Table) → IsTable t → IsTable u → u.base ≡ t.base → u.tracks ≡ t.tracks → 0 < fracs t → 0 < fracs u → IsTorn t
        → IsWeak (letters u) (fraction_graph u) → AcceptsAsMarked t u → ⊥ }
{}

/// A torn table has one list of words.
pub fn torn_words_are_one()
    ensures { (t : Table) (s1 s2 : ℕ) (w1 w2 p1 p2 a1 a2 r1 r2 : List ℕ) → AreTornWords t s1 w1 p1 a1 r1 → AreTornWords t s2 w2 p2 a2 r2
        → (s1 ≡ s2) × ((w1 ≡ w2) × ((p1 ≡ p2) × ((a1 ≡ a2) × (r1 ≡ r2)))) }
{}

/// No weak table stands for a set that two words show not to be weak.
pub fn shown_sets_have_no_weak_automaton()
    ensures bound { (t : Table) (f : Formula) (placed : List ℤ → List ℤ) (track sign : ℕ) (whole stem accept reject : List ℕ) → IsTable t
        → IsWeak (letters t) (fraction_graph t) → StandsForMixed t (bound_by_fraction track (set_of f placed))
        → AreShown t.base t.tracks sign whole stem accept reject
        → ShowsNotWeak (bound_by_fraction track (set_of f placed)) t.base t.tracks sign whole stem accept reject → ⊥ }
    ensures solutions { (t : Table) (sorts : List Sort) (f : Formula) (sign : ℕ) (whole stem accept reject : List ℕ) → IsTable t
        → IsWeak (letters t) (fraction_graph t) → StandsForMixed t (Solves sorts f) → AreShown t.base t.tracks sign whole stem accept reject
        → ShowsNotWeak (Solves sorts f) t.base t.tracks sign whole stem accept reject → ⊥ }
{}
