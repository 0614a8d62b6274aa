//! Laws of atoms' tables.

ghost use Rattle.std.specs.Prelude.{ℕ};
ghost use Rattle.lash_model.specs.Formulas.{Linear, Comparison};
ghost use Rattle.lash_model.specs.Tables.{Table};
ghost use Rattle.threshold_laws.specs.Thresholds.{IsAtomTable, IsHeavyAtom};
ghost use Rattle.lasso_laws.specs.RealAtoms.{IsRealAtomTable, IsHeavyRealAtom};

/// A heavy atom and a table of it exclude each other.
pub fn heavy_or_table()
    ensures { (kind : Comparison) (a : Linear) (r n limit : ℕ) (t : Table) → IsHeavyAtom kind a r n limit → IsAtomTable kind a r n limit t → ⊥ }
{}

/// A heavy atom over the fractions and a table of it exclude each other.
pub fn heavy_or_real_table()
    ensures { (kind : Comparison) (a : Linear) (r n limit : ℕ) (t : Table) → IsHeavyRealAtom kind a r n limit → IsRealAtomTable kind a r n limit t → ⊥ }
{}
