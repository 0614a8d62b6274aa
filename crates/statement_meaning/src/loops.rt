//! Judging the statement that keeps a loop.

ghost use Rattle.script_names.specs.Kept.{sets_of};
ghost use Rattle.script_statements.specs.Statements.{loop_of};
ghost use Rattle.script_syntax.specs.Trees.{declaration_of};
ghost use Rattle.std.specs.Prelude.{ℕ, map};
ghost use Rattle.loop_meaning.specs.Looping.{IsLoopReadable, turn_of};
ghost use Rattle.statement_meaning.specs.Judging.{IsJudgement};

use crate::sets::SETS_LIMIT;
use crate::statement::Statement;
use loop_meaning::resolve_loop;
use script_meaning::Refusal;
use script_names::{Defs, FaultAt, Name, NameFault};
use script_statements::Loop;
use std::alloc::Global;

/// Judges a loop that is to be kept: its name first, which is new.
pub fn loop_to_keep(alloc: Global, defs: &Defs, turns: &Loop<'_>) -> Result<Statement, Refusal>
    requires readable { IsLoopReadable (map declaration_of turns.now.vars.items) (turn_of turns.now) }
    ensures { (base : ℕ) → IsJudgement base (sets_of defs.now) (loop_of turns.now) result }
{
    if defs.place(turns.name.bytes).is_some() {
        return Err(Refusal::Fault(FaultAt {
            fault: NameFault::Repeated,
            place: turns.name.place,
        }));
    }
    match resolve_loop(alloc, defs, defs.len() >= SETS_LIMIT, turns) {
        Ok(found) => match Name::new(alloc, turns.name.bytes) {
            Ok(name) => Ok(Statement::Loop {
                name,
                vars: found.vars,
                body: found.body,
            }),
            Err(_) => Err(Refusal::Memory),
        },
        Err(Refusal::Fault(fault)) => Err(Refusal::Fault(fault)),
        Err(Refusal::Limit(which)) => Err(Refusal::Limit(which)),
        Err(Refusal::Memory) => Err(Refusal::Memory),
    }
}
