//! The text of automata, and its laws: tables are told by their texts, and canonical tables by their sets.
#![tactic(auto)]

ghost use Rattle.std.specs.Prelude.{◌≡◌, ℕ, List};
ghost use Rattle.lash_model.specs.Formulas.{Sort, Formula};
ghost use Rattle.lash_model.specs.Meaning.{Solves};
ghost use Rattle.lash_model.specs.Tables.{Table, IsTable, IsDiagram};
ghost use Rattle.lash_model.specs.Standing.{StandsForWhole};
ghost use Rattle.canonical_laws.specs.Canonical.{IsCanonical, AgreeOnWords};
ghost use Rattle.automaton_texts.specs.Text.{text_of};

/// Two diagrams of one base and number of tracks that have one text, under one list of variables, are equal.
pub fn texts_tell_diagrams()
    ensures { (vs : List (List ℕ × Sort)) (t u : Table) → IsTable t → IsTable u → IsDiagram t → IsDiagram u → t.base ≡ u.base → t.tracks ≡ u.tracks → text_of vs t ≡ text_of vs u → t ≡ u }
{}

/// Canonical diagrams of one base and number of tracks, under one list of variables, have one text exactly where the same words spell
/// solutions of their sets.
pub fn texts_tell_sets()
    ensures equal { (vs : List (List ℕ × Sort)) (t u : Table) (sorts : List Sort) (f g : Formula) → IsCanonical t → IsCanonical u → t.base ≡ u.base → t.tracks ≡ u.tracks → StandsForWhole t (Solves sorts f) → StandsForWhole u (Solves sorts g) → AgreeOnWords t.base t.tracks (Solves sorts f) (Solves sorts g) → text_of vs t ≡ text_of vs u }
    ensures agree { (vs : List (List ℕ × Sort)) (t u : Table) (sorts : List Sort) (f g : Formula) → IsCanonical t → IsCanonical u → t.base ≡ u.base → t.tracks ≡ u.tracks → StandsForWhole t (Solves sorts f) → StandsForWhole u (Solves sorts g) → text_of vs t ≡ text_of vs u → AgreeOnWords t.base t.tracks (Solves sorts f) (Solves sorts g) }
{}
