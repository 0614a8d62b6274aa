//! Laws of closures.

ghost use Rattle.std.specs.Prelude.{◌≡◌, Bool, None};
ghost use Rattle.lash_model.specs.Formulas.{Formula};
ghost use Rattle.loop_closure.specs.Closing.{IsClosed, IsUnclosed};
ghost use Rattle.loop_closure.specs.declared.errors.LoopError.{LoopError as Refusal};
ghost use Rattle.loop_closure.specs.declared.errors.LoopError.TheVariants.{Memory};
ghost use Rattle.loop_laws.specs.Turns.{Body};
ghost use Rattle.term_substitution.specs.Limits.{first_passed};

/// A loop that has a closure inside all limits is refused for want of memory alone, and beside want of memory a loop is refused for one
/// cause.
pub fn closures_exclude_each_other()
    ensures closed { (counted : Bool) (l : Body) (f : Formula) (e : Refusal) → IsClosed counted l f → first_passed f ≡ None → IsUnclosed counted l e → e ≡ Memory }
    ensures cause { (counted : Bool) (l : Body) (e d : Refusal) → IsUnclosed counted l e → IsUnclosed counted l d → (e ≡ Memory → ⊥) → (d ≡ Memory → ⊥) → e ≡ d }
{}
