//! Laws of substitution.

ghost use Rattle.std.specs.Prelude.{◌≡◌, ◌<◌, ◌↔◌, ℕ, List, All, length, map, ℤ};
ghost use Rattle.lash_model.specs.Formulas.{Formula, Linear};
ghost use Rattle.lash_model.specs.Meaning.{holds};
ghost use Rattle.term_substitution.specs.Substitution.{substituted};
ghost use Rattle.term_substitution.specs.Values.{term_value};

/// A formula with terms put for its variables holds of a vector exactly where the formula holds of the values of the terms at the vector.
pub fn substitution_replaces_values()
    ensures { (f : Formula) (terms : List Linear) (places : ℕ) (ns : List ℤ) (d : ℕ) → length ns ≡ places → All (λ t. All (λ s. s.0 < places) t.terms) terms → holds (substituted f terms places) ns d ↔ holds f (map (term_value ns d) terms) d }
{}
