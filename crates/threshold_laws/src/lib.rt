//! The thresholds of atoms, and their laws: what a table says whose states count thresholds.
#![tactic(auto)]

ghost use Rattle.std.specs.Prelude.{◌≡◌, ℕ, ◌^◌, ◌<◌, List, map, ℤ, neg_ℤ};
ghost use Rattle.integer_laws.specs.Runs.{run};
ghost use Rattle.lash_model.specs.Formulas.{Linear, Comparison, Atom};
ghost use Rattle.lash_model.specs.Words.{values};
ghost use Rattle.lash_model.specs.Meaning.{total, holds};
ghost use Rattle.lash_model.specs.Tables.{Table};
ghost use Rattle.lash_model.specs.Standing.{StandsForWhole};
ghost use Rattle.threshold_laws.specs.Thresholds.{letter_total, sign_total, seeds, AreThresholds, CountsThresholds};

/// A linear term's total over the values of a word is the run over the letters' totals from minus the sign bits' total.
pub fn totals_are_runs()
    ensures { (ts : List (ℕ × ℤ)) (r n sign : ℕ) (w : List ℕ) → total ts (values r n sign w) ≡ run r (neg_ℤ (sign_total ts n sign)) (map (letter_total ts r n) w) }
{}

/// A table whose states count the thresholds of an atom stands for the atom.
pub fn counting_tables_stand()
    ensures { (kind : Comparison) (a : Linear) (r n : ℕ) (ts : List ℤ) (t : Table) → 0 < r → CountsThresholds kind a r n ts t → AreThresholds r (r ^ n) (letter_total a.terms r n) (seeds kind a.constant) ts → StandsForWhole t (holds (Atom kind a)) }
{}
