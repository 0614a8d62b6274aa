//! The program: it collects the words, takes standard input, and writes to standard output and standard error.
#![tactic(auto)]

ghost use Rattle.std.specs.Prelude.{◌≡◌, ◌⊎◌, IfErr};

use lash_command::{Ending, report, run};
use lash_io::{StdSink, StdSource};
use std::process::ExitCode;
use std::{env, io};

/// The words after the program's name, or how the program ends without them: a word is no text, or there was no memory.
fn words(rt: &HostRuntime) -> Result<Vec<String>, Ending>
    ensures { IfErr result (λ ending. (ending ≡ Ending.Usage) ⊎ (ending ≡ Ending.NoMemory)) }
{
    let all = match env::args(rt) {
        Ok(all) => all,
        Err(error) => {
            return Err(match error.kind() {
                io::ErrorKind::OutOfMemory => Ending::NoMemory,
                _ => Ending::Usage,
            });
        }
    };
    match all.skip(1).collect(rt.alloc()) {
        Ok(words) => Ok(words),
        Err(_) => Err(Ending::NoMemory),
    }
}

fn main(rt: HostRuntime) -> ExitCode {
    let mut errors = StdSink::new(rt.stderr());
    let words = match words(&rt) {
        Ok(words) => words,
        Err(ending) => {
            report(&ending, &mut errors);
            return ExitCode::from(ending.status().code());
        }
    };
    let mut input = StdSource::new(rt.reader());
    let mut output = StdSink::new(io::writer(&rt));
    let status = run(rt.alloc(), &words, &mut input, &mut output, &mut errors);
    ExitCode::from(status.code())
}
