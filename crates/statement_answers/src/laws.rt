//! Laws of answers.

ghost use Rattle.std.specs.Prelude.{◌≡◌, ℕ, List};
ghost use Rattle.script_names.specs.Kept.{KeptSet};
ghost use Rattle.statement_meaning.specs.Asking.{Asked};
ghost use Rattle.statement_answers.specs.Pieces.{IsAnswerable, IsPieceOf, IsUnanswered};
ghost use Rattle.statement_answers.specs.declared.errors.Unanswered.{Unanswered as UnansweredOfModel};
ghost use Rattle.statement_answers.specs.declared.settings.Settings.{Settings};

use matrix_powers::least_powers_are_unique;
use product_ops::{heavy_or_mixed_pairs, heavy_or_pairs};
use set_compile::{refusals_are_one, refused_or_compiled, tables_are_unique};

/// What can be answered is refused only if memory runs out or the sink meets a fault, what has its piece can be answered, and there is one
/// cause at the most.
pub fn answers_have_one_cause()
    ensures answered { (settings : Settings) (kept : List KeptSet) (asked : Asked) (u : UnansweredOfModel) → IsAnswerable settings kept asked → IsUnanswered settings kept asked u → ⊥ }
    ensures refused { (settings : Settings) (kept : List KeptSet) (asked : Asked) (u v : UnansweredOfModel) → IsUnanswered settings kept asked u → IsUnanswered settings kept asked v → u ≡ v }
    ensures pieces { (settings : Settings) (kept : List KeptSet) (asked : Asked) (piece : List ℕ) → IsPieceOf settings kept asked piece → IsAnswerable settings kept asked }
{
    refused_or_compiled();
    refusals_are_one();
    tables_are_unique();
    heavy_or_pairs();
    heavy_or_mixed_pairs();
    least_powers_are_unique();
}
