//! Laws of lassos over the fractions: moves that keep a lasso's point, graphs of bounds that tell an atom at it, and
//! the table of whole numbers.
#![tactic(auto)]

ghost use Rattle.std.specs.Prelude.{◌≡◌, ℕ, suc, ◌+◌, ◌^◌, ◌<◌, ◌≤◌, ◌↔◌, List, ◌∷◌, ◌++◌, length, slice_index, nat_eq, IsTrue, ℤ, ◌-ℤ◌};
ghost use Rattle.graph_laws.specs.Walks.{go, copies};
ghost use Rattle.lash_model.specs.Formulas.{Linear, Comparison, Atom};
ghost use Rattle.lash_model.specs.Lassos.{Lasso, IsLasso, numerators, denominator};
ghost use Rattle.lash_model.specs.Meaning.{total, holds};
ghost use Rattle.lash_model.specs.Standing.{StandsForMixed};
ghost use Rattle.lash_model.specs.Tables.{Table, letters};
ghost use Rattle.threshold_laws.specs.Thresholds.{letter_total, AreThresholds};
ghost use Rattle.lash_model.specs.Words.{values};
ghost use Rattle.lasso_laws.specs.Points.{IsSamePoint, turned, rotated, padded};
ghost use Rattle.part_laws.specs.Graphs.{IsWeak};
ghost use Rattle.part_laws.specs.CanonicalMixed.{fraction_graph};
ghost use Rattle.lasso_laws.specs.WholeNumbers.{whole_at, IsWholeTable};
ghost use Rattle.lasso_laws.specs.Windows.{IsBoundGraph, CountsBounds, window_seeds};
ghost use Rattle.lasso_laws.specs.RealAtoms.{IsRealAtomTable};

/// A lasso keeps its point if its cycle is put at the end of its stem and repeated, if its cycle is rotated, and if sign letters are
/// put in front.
pub fn lassos_move()
    ensures turned { (r n more less : ℕ) (x : Lasso) → 0 < r → IsSamePoint r n x (turned more (suc less) x) }
    ensures rotated { (r n l : ℕ) (v : List ℕ) (x : Lasso) → 0 < r → x.cycle ≡ l ∷ v → IsSamePoint r n x (rotated l v x) }
    ensures padded { (r n more : ℕ) (x : Lasso) → 2 ≤ r → x.sign < 2 ^ n → IsSamePoint r n x (padded r n more x) }
{}

/// In a graph of bounds, from the bound after a whole part, the colour after the stem and as many iterations of the cycle as there are
/// fraction states is yes exactly if the atom holds at the lasso's point.
pub fn windows_tell_atoms()
    ensures { (kind : Comparison) (a : Linear) (r n : ℕ) (rows colours : List ℕ) (state : ℤ → ℕ) → 2 ≤ r → IsBoundGraph kind a.terms r n rows colours state
        → (x : Lasso) → IsLasso r n x
        → IsTrue (nat_eq (slice_index colours (go rows (r ^ n) (state (a.constant -ℤ total a.terms (values r n x.sign x.whole)))
        (x.stem ++ copies (length colours) x.cycle))) 1) ↔ holds (Atom kind a) (numerators r n x) (denominator r x) }
{}

/// A table whose integer states count thresholds, and whose fraction states are a graph of bounds, stands for its atom.
pub fn windows_stand()
    ensures { (kind : Comparison) (a : Linear) (r n : ℕ) (ts : List ℤ) (state : ℤ → ℕ) (t : Table) → 2 ≤ r → CountsBounds kind a r n ts state t
        → AreThresholds r (r ^ n) (letter_total a.terms r n) (window_seeds kind a) ts → StandsForMixed t (holds (Atom kind a)) }
{}

/// A graph of bounds is weak, if each of its states is the state of some bound.
pub fn windows_are_weak()
    ensures { (kind : Comparison) (a : Linear) (r n : ℕ) (rows colours : List ℕ) (state : ℤ → ℕ) → IsBoundGraph kind a.terms r n rows colours state
        → ((q : ℕ) → q < length colours → (x : ℤ) × (state x ≡ q)) → IsWeak (r ^ n) (record { rows = rows; colours = colours }) }
{}

/// The table of whole numbers of a track stands for them, and its fraction part is weak.
pub fn whole_tables_stand()
    ensures stands { (r n track : ℕ) (t : Table) → 2 ≤ r → track < n → IsWholeTable r n track t → StandsForMixed t (whole_at track) }
    ensures weak { (r n track : ℕ) (t : Table) → IsWholeTable r n track t → IsWeak (r ^ n) (record { rows = t.frac_rows; colours = t.colours }) }
{}

/// The table of an atom over the fractions stands for its atom, and its fraction part is weak.
pub fn real_atom_tables_stand()
    ensures stands { (kind : Comparison) (a : Linear) (r n limit : ℕ) (t : Table) → 2 ≤ r → IsRealAtomTable kind a r n limit t
        → StandsForMixed t (holds (Atom kind a)) }
    ensures weak { (kind : Comparison) (a : Linear) (r n limit : ℕ) (t : Table) → IsRealAtomTable kind a r n limit t → IsWeak (letters t) (fraction_graph t) }
{}
