//! A session: the statements of a script are answered in their order, until the script is at its end or one is refused. Own.

ghost use Rattle.std.specs.Prelude.{◌≡◌, ◌≤◌, ◌<◌, true, IfOk};
ghost use Rattle.statement_answers.specs.Keeping.{sets_kept};
ghost use Rattle.lash_command.specs.Answers.{Outside, HasCome, Ends, Turns, unread_ending, unanswered_ending};

use crate::ending::{Ending, Refusal};
use lash_io::{Memory, Sink, Source};
use script_meaning::Which;
use script_parse::{ScriptError, Statements};
use statement_answers::{Library, Settings, Unanswered, answer};
use std::alloc::Global;

/// How the run ends where the reader of the script gives no statement of the number.
fn unread(statement: u64, error: ScriptError) -> Ending
    ensures { result ≡ unread_ending statement error }
{
    let refusal = match error {
        ScriptError::Read => return Ending::ReadFault,
        ScriptError::Memory => return Ending::NoMemory,
        ScriptError::Limit { which } => Refusal::Limit { which },
        ScriptError::Syntax { place } => Refusal::Syntax { place },
        ScriptError::Name { fault, place } => Refusal::Name { fault, place },
    };
    Ending::Refused { statement, refusal }
}

/// How the run ends where the statement of the number is not answered.
fn unanswered(statement: u64, cause: Unanswered) -> Ending
    ensures { result ≡ unanswered_ending statement cause }
{
    let refusal = match cause {
        Unanswered::Heavy => Refusal::Heavy,
        Unanswered::NotWeak {
            sign,
            whole,
            stem,
            accept,
            reject,
        } => Refusal::NotWeak {
            sign,
            whole,
            stem,
            accept,
            reject,
        },
        Unanswered::NoPower => Refusal::NoPower,
        Unanswered::Closure { which } => Refusal::Limit { which },
        Unanswered::KeptCells => Refusal::Limit {
            which: Which::KeptCells,
        },
        Unanswered::Fault => return Ending::WriteFault,
        Unanswered::Memory => return Ending::NoMemory,
    };
    Ending::Refused { statement, refusal }
}

/// Answers the next statement, where so many were answered; or says how the run ends.
fn turn<S: Source, K: Sink>(
    alloc: Global,
    statements: &mut Statements,
    library: &mut Library,
    answered: u64,
    input: &mut S,
    out: &mut K,
) -> Result<(), Ending>
    requires base { statements.old.base ≡ library.old.settings.base }
    requires live { statements.old.live ≡ true }
    requires few { answered ≤ 16777216 }
    ensures base { statements.new.base ≡ statements.old.base }
    ensures settings { library.new.settings ≡ library.old.settings }
    ensures live { IfOk result (λ _. statements.new.live ≡ true) }
    ensures grown { IfOk result (λ _. statements.old.progress.given < statements.new.progress.given) }
    ensures within { IfOk result (λ _. statements.new.progress.given ≤ 16777216) }
    ensures comes { (before : Outside) → HasCome library.old.settings before (record { left = S.left input.old; read_faults = S.faults input.old; held = K.held out.old; write_faults = K.faults out.old }) (sets_kept library.old) statements.old.progress answered → Turns library.old.settings before (record { left = S.left input.new; read_faults = S.faults input.new; held = K.held out.new; write_faults = K.faults out.new }) (sets_kept library.new) statements.new.progress answered result }
{
    match statements.next(alloc, library.defs(), input) {
        Ok(Some(statement)) => match answer(alloc, library, statement, out) {
            Ok(()) => Ok(()),
            Err(cause) => Err(unanswered(answered + 1, cause)),
        },
        Ok(None) => Err(Ending::Finished),
        Err(error) => Err(unread(answered + 1, error)),
    }
}

/// Answers a script: each statement in turn, until its end or the first refusal.
pub(crate) fn session<S: Source, K: Sink>(
    alloc: Global,
    settings: Settings,
    input: &mut S,
    out: &mut K,
) -> Ending
    requires { settings.cells ≤ 16777216 }
    ensures { Ends settings result (record { left = S.left input.old; read_faults = S.faults input.old; held = K.held out.old; write_faults = K.faults out.old }) (record { left = S.left input.new; read_faults = S.faults input.new; held = K.held out.new; write_faults = K.faults out.new }) }
{
    let mut statements = match Statements::new(alloc, settings.base) {
        Ok(statements) => statements,
        Err(Memory) => return Ending::NoMemory,
    };
    let mut library = Library::new(alloc, settings);
    let mut answered = 0;
    'statements: loop {
        match turn(alloc, &mut statements, &mut library, answered, input, out) {
            Ok(()) => answered += 1,
            Err(ending) => return ending,
        }
    }
}
