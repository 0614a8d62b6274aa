//! Laws of formulas.

ghost use Rattle.std.specs.Prelude.{◌≡◌, ◌<◌, ◌↔◌, ℕ, List, length, All, slice_index_or, IsTrue, ℤ, pos};
ghost use Rattle.lash_model.specs.Formulas.{Formula};
ghost use Rattle.lash_model.specs.Meaning.{holds};
ghost use Rattle.formula_core.specs.Atoms.{HasLinearAtoms};
ghost use Rattle.formula_core.specs.Counts.{uses, free_places};

/// What a formula says depends on the entries at its free places alone: vectors of one length that agree there satisfy it alike. The
/// formula may use any places, since those past the end of a vector count as 0.
pub fn depends_on_free_places()
    ensures used { (f : Formula) (ns ms : List ℤ) (d : ℕ) → HasLinearAtoms f → length ns ≡ length ms → ((place : ℕ) → IsTrue (uses place f) → slice_index_or ns place (pos 0) ≡ slice_index_or ms place (pos 0)) → holds f ns d ↔ holds f ms d }
    ensures free { (f : Formula) (ns ms : List ℤ) (d : ℕ) → HasLinearAtoms f → length ns ≡ length ms → All (λ place. slice_index_or ns place (pos 0) ≡ slice_index_or ms place (pos 0)) (free_places f (length ns)) → holds f ns d ↔ holds f ms d }
{}
