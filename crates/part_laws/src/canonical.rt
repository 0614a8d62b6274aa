//! Laws of canonical tables with fraction states.

ghost use Rattle.std.specs.Prelude.{◌≡◌, List};
ghost use Rattle.lash_model.specs.Formulas.{Sort, Formula};
ghost use Rattle.lash_model.specs.Meaning.{Solves};
ghost use Rattle.lash_model.specs.Standing.{StandsForMixed};
ghost use Rattle.lash_model.specs.Tables.{Table};
ghost use Rattle.part_laws.specs.CanonicalMixed.{everything, IsCanonicalMixed, AcceptSameLassos, AgreeOnLassos};

/// Two canonical tables with fraction states, of one base and number of tracks, that accept the same lassos are equal.
pub fn canonical_tables_are_unique()
    ensures { (t u : Table) → IsCanonicalMixed t → IsCanonicalMixed u → t.base ≡ u.base → t.tracks ≡ u.tracks → AcceptSameLassos t u → t ≡ u }
{}

/// Canonical tables with fraction states, of one base and number of tracks, are equal exactly if the same lassos spell solutions of
/// their sets.
pub fn canonical_tables_tell_sets()
    ensures equal { (t u : Table) (sorts : List Sort) (f g : Formula) → IsCanonicalMixed t → IsCanonicalMixed u → t.base ≡ u.base → t.tracks ≡ u.tracks
        → StandsForMixed t (Solves sorts f) → StandsForMixed u (Solves sorts g) → AgreeOnLassos t.base t.tracks (Solves sorts f) (Solves sorts g) → t ≡ u }
    ensures agree { (t u : Table) (sorts : List Sort) (f g : Formula) → StandsForMixed t (Solves sorts f) → StandsForMixed u (Solves sorts g) → t ≡ u
        → AgreeOnLassos t.base t.tracks (Solves sorts f) (Solves sorts g) }
{}

/// Some table is canonical.
pub fn some_table_is_canonical()
    ensures { IsCanonicalMixed everything }
{}
