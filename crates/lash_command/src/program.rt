//! The whole program, over any source and sinks.

ghost use Rattle.std.specs.Prelude.{◌≡◌, ◌≤◌, length};
ghost use Rattle.lash_command.specs.Answers.{Answers, Explains, Outside, default_settings};
ghost use Rattle.lash_command.specs.Lines.{IsReported, line_of};

use crate::ending::Ending;
use crate::lines::report;
use crate::session::session;
use crate::status::Status;
use digit_codes::Base;
use lash_io::{Sink, Source};
use statement_answers::Settings;
use std::alloc::Global;

/// Runs the program: answers the statements of the script one after another to `out`, until the script's end or the first statement that
/// is refused, and writes the line of a refusal to `err`. The answer says how it ended.
///
/// `Unbuilt` comes if there are words, `Script` if the syntax or a name is wrong, `TooLarge` if a limit is passed or a construction has
/// more than 4,194,304 cells, `NoPower` if no power of a loop's matrix comes again, `NotWeak` if no weak automaton has the set of a
/// formula that binds a variable, `ReadFault` and `WriteFault` if a fault was counted, and `NoMemory` may come at any time before a
/// statement's piece is written.
pub fn run<S: Source, K: Sink, E: Sink>(
    alloc: Global,
    words: &[String],
    input: &mut S,
    out: &mut K,
    err: &mut E,
) -> Status
    ensures { Answers default_settings result (length words.now) (record { left = S.left input.old; read_faults = S.faults input.old; held = K.held out.old; write_faults = K.faults out.old }) (record { left = S.left input.new; read_faults = S.faults input.new; held = K.held out.new; write_faults = K.faults out.new }) (E.held err.old) (E.held err.new) (E.faults err.old) (E.faults err.new) }
{
    let ending = answer(alloc, defaults(), words, input, out);
    report(&ending, err);
    ending.status()
}

/// The settings of a run: base 2, and 4,194,304 cells for one construction.
fn defaults() -> Settings
    ensures settings { result ≡ default_settings }
    ensures limit { result.cells ≤ 16777216 }
{
    match Base::new(2) {
        Some(base) => Settings {
            base,
            cells: 4_194_304,
        },
        None => unreachable!(),
    }
}

/// Takes the script and answers it.
fn answer<S: Source, K: Sink>(
    alloc: Global,
    settings: Settings,
    words: &[String],
    input: &mut S,
    out: &mut K,
) -> Ending
    requires { settings.cells ≤ 16777216 }
    ensures { Explains settings result (length words.now) (record { left = S.left input.old; read_faults = S.faults input.old; held = K.held out.old; write_faults = K.faults out.old }) (record { left = S.left input.new; read_faults = S.faults input.new; held = K.held out.new; write_faults = K.faults out.new }) }
{
    if !words.is_empty() {
        return Ending::Unbuilt;
    }
    session(alloc, settings, input, out)
}
