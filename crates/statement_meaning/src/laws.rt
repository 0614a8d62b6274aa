//! Laws of what statements ask.

ghost use Rattle.std.specs.Prelude.{◌≡◌, ◌⊎◌, ℕ, List};
ghost use Rattle.script_names.specs.Kept.{KeptSet};
ghost use Rattle.script_statements.specs.Statements.{StatementShape};
ghost use Rattle.script_meaning.specs.declared.resolving.Refusal.{Refusal as RefusalOfModel};
ghost use Rattle.script_meaning.specs.declared.resolving.Refusal.TheVariants.{Memory};
ghost use Rattle.statement_meaning.specs.Asking.{asked_of};
ghost use Rattle.statement_meaning.specs.Judging.{IsJudged, IsStatementRefused};

use crate::statement::Statement;

/// A statement that asks something is refused for want of memory alone, it asks one thing, and it has one refusal besides that.
pub fn judgements_exclude_each_other()
    ensures judged { (base : ℕ) (kept : List KeptSet) (shape : StatementShape) (s : Statement) (e : RefusalOfModel) → IsJudged base kept shape s → IsStatementRefused base kept shape e → e ≡ Memory }
    ensures asked { (base : ℕ) (kept : List KeptSet) (shape : StatementShape) (s t : Statement) → IsJudged base kept shape s → IsJudged base kept shape t → asked_of s ≡ asked_of t }
    ensures refused { (base : ℕ) (kept : List KeptSet) (shape : StatementShape) (e f : RefusalOfModel) → IsStatementRefused base kept shape e → IsStatementRefused base kept shape f → (e ≡ f) ⊎ (e ≡ Memory) ⊎ (f ≡ Memory) }
{}
