//! Laws of the meaning of scripts.

ghost use Rattle.std.specs.Prelude.{◌≡◌, ◌<◌, ◌↔◌, ◌⊎◌, ℕ, List, length, map, Bool, true, false, Some, ℤ};
ghost use Rattle.lash_model.specs.Formulas.{Formula};
ghost use Rattle.lash_model.specs.Meaning.{holds};
ghost use Rattle.script_grammar.specs.Views.{Relation};
ghost use Rattle.script_syntax.specs.Trees.{Named, SignedShape, TreeShape, Truth, Call, Not, And, Or, Implies, Equivalent};
ghost use Rattle.script_names.specs.Kept.{KeptSet, kept_set};
ghost use Rattle.script_names.specs.Scopes.{Scope};
ghost use Rattle.script_meaning.specs.Core.{core, compared};
ghost use Rattle.script_meaning.specs.Values.{value_of, Compares};
ghost use Rattle.script_meaning.specs.Resolving.{IsWithin, IsFirstPassed};
ghost use Rattle.script_meaning.specs.declared.limits.Which.{Which};

/// The formula of a comparison holds exactly where the values of its two terms compare.
pub fn comparisons_compare_values()
    ensures { (scope : Scope) (a : List SignedShape) (r : Relation) (b : List SignedShape) (ns : List ℤ) (d : ℕ) → holds (compared scope a r b) ns d ↔ Compares r (value_of scope ns d a) (value_of scope ns d b) }
{}

/// The core formula of a connective holds as the word says of the core formulas of its parts.
pub fn connectives_mean_themselves()
    ensures always { (kept : List KeptSet) (scope : Scope) (ns : List ℤ) (d : ℕ) → holds (core kept scope (Truth true)) ns d }
    ensures never { (kept : List KeptSet) (scope : Scope) (ns : List ℤ) (d : ℕ) → 0 < d → holds (core kept scope (Truth false)) ns d → ⊥ }
    ensures negation { (kept : List KeptSet) (scope : Scope) (f : TreeShape) (ns : List ℤ) (d : ℕ) → holds (core kept scope (Not f)) ns d ↔ (holds (core kept scope f) ns d → ⊥) }
    ensures conjunction { (kept : List KeptSet) (scope : Scope) (f g : TreeShape) (ns : List ℤ) (d : ℕ) → holds (core kept scope (And f g)) ns d ↔ (holds (core kept scope f) ns d × holds (core kept scope g) ns d) }
    ensures disjunction { (kept : List KeptSet) (scope : Scope) (f g : TreeShape) (ns : List ℤ) (d : ℕ) → holds (core kept scope (Or f g)) ns d ↔ (holds (core kept scope f) ns d ⊎ holds (core kept scope g) ns d) }
    ensures implication { (kept : List KeptSet) (scope : Scope) (f g : TreeShape) (ns : List ℤ) (d : ℕ) → holds (core kept scope (Implies f g)) ns d ↔ ((holds (core kept scope f) ns d → ⊥) ⊎ holds (core kept scope g) ns d) }
    ensures equivalence { (kept : List KeptSet) (scope : Scope) (f g : TreeShape) (ns : List ℤ) (d : ℕ) → holds (core kept scope (Equivalent f g)) ns d ↔ (holds (core kept scope (Implies f g)) ns d × holds (core kept scope (Implies g f)) ns d) }
{}

/// A formula that is within the limits passes none first, and no formula passes two different limits first.
pub fn limits_exclude_each_other()
    ensures none { (full : Bool) (base places : ℕ) (tree : TreeShape) (f : Formula) (which : Which) → IsWithin full base places tree f → IsFirstPassed full base places tree f which → ⊥ }
    ensures one { (full : Bool) (base places : ℕ) (tree : TreeShape) (f : Formula) (which other : Which) → IsFirstPassed full base places tree f which → IsFirstPassed full base places tree f other → which ≡ other }
{}

/// The formula of a call of a kept set holds of a vector exactly where the set's formula holds of the values of the arguments at the vector.
pub fn calls_ask_the_kept_set()
    ensures { (kept : List KeptSet) (scope : Scope) (name : Named) (ts : List (List SignedShape)) (k : KeptSet) (ns : List ℤ) (d : ℕ) → kept_set kept name.left ≡ Some k → length ts ≡ length k.vars → length ns ≡ length scope → holds (core kept scope (Call name ts)) ns d ↔ holds k.formula (map (value_of scope ns d) ts) d }
{}
