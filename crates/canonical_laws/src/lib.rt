//! The laws of canonical automata: classes of states of equal behaviour, numbering by least paths, and uniqueness.
#![tactic(auto)]

ghost use Rattle.std.specs.Prelude.{◌≡◌, ℕ, List, ◌+◌, ◌*◌, ◌<◌, Bool, IsTrue, length, slice_index};
ghost use Rattle.lash_model.specs.Formulas.{Sort, Formula};
ghost use Rattle.lash_model.specs.Meaning.{Solves};
ghost use Rattle.lash_model.specs.Standing.{StandsForWhole};
ghost use Rattle.lash_model.specs.Tables.{Table};
ghost use Rattle.canonical_laws.specs.Canonical.{IsCanonical, AcceptSameWords, AgreeOnWords};
ghost use Rattle.canonical_laws.specs.Twins.{Part, IsMinimal, IsOneToOne, AreRelated};

/// Two minimal parts of automata, whose outputs pass a one-to-one test after every path, have as many states, the same starts and
/// the same targets.
pub fn minimal_parts_are_unique()
    ensures states { (width : ℕ) (rel : ℕ → ℕ → Bool) (a b : Part) → IsMinimal width a → IsMinimal width b → IsOneToOne (λ x y. IsTrue (rel x y)) → AreRelated width (λ x y. IsTrue (rel x y)) a b → length a.outs ≡ length b.outs }
    ensures starts { (width : ℕ) (rel : ℕ → ℕ → Bool) (a b : Part) → IsMinimal width a → IsMinimal width b → IsOneToOne (λ x y. IsTrue (rel x y)) → AreRelated width (λ x y. IsTrue (rel x y)) a b → (j : ℕ) → j < length a.starts → slice_index a.starts j ≡ slice_index b.starts j }
    ensures targets { (width : ℕ) (rel : ℕ → ℕ → Bool) (a b : Part) → IsMinimal width a → IsMinimal width b → IsOneToOne (λ x y. IsTrue (rel x y)) → AreRelated width (λ x y. IsTrue (rel x y)) a b → (q l : ℕ) → q < length a.outs → l < width → slice_index a.rows (q * width + l) ≡ slice_index b.rows (q * width + l) }
{}

/// Two canonical diagrams of one base and number of tracks that accept the same words are equal.
pub fn canonical_diagrams_are_unique()
    ensures { (t u : Table) → IsCanonical t → IsCanonical u → t.base ≡ u.base → t.tracks ≡ u.tracks → AcceptSameWords t u → t ≡ u }
{}

/// Canonical diagrams of one base and number of tracks are equal exactly where the same words spell solutions of their sets.
pub fn diagrams_tell_sets()
    ensures equal { (t u : Table) (sorts : List Sort) (f g : Formula) → IsCanonical t → IsCanonical u → t.base ≡ u.base → t.tracks ≡ u.tracks → StandsForWhole t (Solves sorts f) → StandsForWhole u (Solves sorts g) → AgreeOnWords t.base t.tracks (Solves sorts f) (Solves sorts g) → t ≡ u }
    ensures agree { (t u : Table) (sorts : List Sort) (f g : Formula) → StandsForWhole t (Solves sorts f) → StandsForWhole u (Solves sorts g) → t ≡ u → AgreeOnWords t.base t.tracks (Solves sorts f) (Solves sorts g) }
{}
