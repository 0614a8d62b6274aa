//! Laws of the texts of tables with fraction states: tables are told by their texts, and canonical tables by their sets.
#![tactic(auto)]

ghost use Rattle.std.specs.Prelude.{◌≡◌, ◌<◌, ℕ, List};
ghost use Rattle.lash_model.specs.Formulas.{Sort, Formula};
ghost use Rattle.lash_model.specs.Meaning.{Solves};
ghost use Rattle.lash_model.specs.Standing.{StandsForMixed};
ghost use Rattle.lash_model.specs.Tables.{Table, fracs, IsTable};
ghost use Rattle.part_laws.specs.CanonicalMixed.{IsCanonicalMixed, AgreeOnLassos};
ghost use Rattle.automaton_texts.specs.Text.{text_of};

/// Two tables with fraction states, of one base and number of tracks, that have one text, under one list of variables, are equal.
pub fn mixed_texts_tell_tables()
    ensures { (vs : List (List ℕ × Sort)) (t u : Table) → IsTable t → IsTable u → 0 < fracs t → 0 < fracs u → t.base ≡ u.base → t.tracks ≡ u.tracks
        → text_of vs t ≡ text_of vs u → t ≡ u }
{}

/// Canonical tables with fraction states, of one base and number of tracks, under one list of variables, have one text exactly if the
/// same lassos spell solutions of their sets.
pub fn mixed_texts_tell_sets()
    ensures equal { (vs : List (List ℕ × Sort)) (t u : Table) (sorts : List Sort) (f g : Formula) → IsCanonicalMixed t → IsCanonicalMixed u → t.base ≡ u.base
        → t.tracks ≡ u.tracks → StandsForMixed t (Solves sorts f) → StandsForMixed u (Solves sorts g)
        → AgreeOnLassos t.base t.tracks (Solves sorts f) (Solves sorts g) → text_of vs t ≡ text_of vs u }
    ensures agree { (vs : List (List ℕ × Sort)) (t u : Table) (sorts : List Sort) (f g : Formula) → IsCanonicalMixed t → IsCanonicalMixed u → t.base ≡ u.base
        → t.tracks ≡ u.tracks → StandsForMixed t (Solves sorts f) → StandsForMixed u (Solves sorts g)
        → text_of vs t ≡ text_of vs u → AgreeOnLassos t.base t.tracks (Solves sorts f) (Solves sorts g) }
{}
