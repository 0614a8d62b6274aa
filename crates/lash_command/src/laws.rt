//! What kept loops are, and how runs end.

ghost use Rattle.std.specs.Prelude.{◌≡◌, ◌<◌, ◌↔◌, ◌++◌, ◌⊎◌, ℕ, true, List, Some, length, ℤ};
ghost use Rattle.lash_io.specs.Faults.{IsFaultCounted};
ghost use Rattle.lash_model.specs.Meaning.{holds};
ghost use Rattle.script_syntax.specs.Trees.{DeclarationShape};
ghost use Rattle.script_statements.specs.Statements.{TurnShape};
ghost use Rattle.script_names.specs.Kept.{KeptSet};
ghost use Rattle.loop_laws.specs.Turns.{after};
ghost use Rattle.loop_meaning.specs.Looping.{loop_body};
ghost use Rattle.statement_answers.specs.Loops.{HasPairs, pairs_of};
ghost use Rattle.statement_answers.specs.declared.settings.Settings.{Settings};
ghost use Rattle.lash_command.specs.Answers.{Explains, Outside};
ghost use Rattle.lash_command.specs.Scripts.{AreAllAnswered, IsGoodScript, Written, is_decided};
ghost use Rattle.lash_command.specs.declared.ending.Ending.TheVariants.{Finished, NoMemory};

use crate::ending::Ending;
use loop_laws::closure_joins_turns;
use statement_answers::answers_have_one_cause;

/// The formula that a loop of a script keeps holds of two vectors of fractions, with an entry for each variable, exactly where some number of
/// turns, each allowed by the guard, leads from the first to the second.
pub fn kept_loops_are_their_turns()
    ensures { (base : ℕ) (kept : List KeptSet) (vars : List DeclarationShape) (t : TurnShape) (x y : List ℤ) (d : ℕ) → HasPairs base (loop_body kept vars t) → length x ≡ length vars → length y ≡ length vars → 0 < d → holds (pairs_of (loop_body kept vars t)) (x ++ y) d ↔ ((k : ℕ) × after (loop_body kept vars t) d k x y) }
{
    closure_joins_turns();
}

/// Two runs on the same bytes and as many words, over any sources and sinks that tell their bytes, end alike, unless one ends for want of memory
/// or at a fault: the same statement is refused, for the same cause at the same place.
pub fn runs_have_one_ending()
    ensures { (settings : Settings) (e f : Ending) (words : ℕ) (bytes : List ℕ) (before now other after : Outside) → before.left ≡ Some bytes → other.left ≡ Some bytes → is_decided e ≡ true → is_decided f ≡ true → Explains settings e words before now → Explains settings f words other after → e ≡ f }
{
    answers_have_one_cause();
}

/// A script of good statements and a blank rest, on which no fault is counted, is answered to its end, or ends for want of memory: each statement
/// has its piece, the source is at its end, and the sink has gained exactly the pieces.
pub fn good_scripts_finish()
    ensures { (settings : Settings) (e : Ending) (bytes : List ℕ) (before now : Outside) (xs : List Written) → before.left ≡ Some bytes → IsGoodScript settings bytes xs → (IsFaultCounted before.read_faults now.read_faults → ⊥) → (IsFaultCounted before.write_faults now.write_faults → ⊥) → Explains settings e 0 before now → ((e ≡ Finished) × AreAllAnswered settings before now xs) ⊎ (e ≡ NoMemory) }
{
    answers_have_one_cause();
}
