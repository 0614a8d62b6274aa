//! Reading one whole statement.

ghost use Rattle.std.specs.Prelude.{◌≡◌, ◌-◌, List, IfOk, IfErr, length, map};
ghost use Rattle.script_tokens.specs.Tokens.{PlacedToken};
ghost use Rattle.script_tokens.specs.Shape.{placed_of};
ghost use Rattle.script_statements.specs.Outcomes.{Spells, AreRefused, refused_at, Outcome, IsOutcome};

use crate::statements::statement;
use crate::tree::Statement;
use script_syntax::{Cursor, Stop};
use script_tokens::Placed;
use std::alloc::Global;

/// The greatest number of groups that may be open at a token.
pub const NESTING_LIMIT: u32 = 256;

/// Why no statement is read. A place is the number of tokens before the one in question; the end of the list counts as a token.
#[derive(Clone, Copy, PartialEq, Eq, Debug)]
pub enum Refusal {
    /// A statement begins with the tokens before the place, and none with the token there too.
    Syntax { at: usize },
    /// The token at the place opens one group too many, and is the first that does.
    Nesting { at: usize },
    Memory,
}

/// Each list of tokens is either a statement within the nesting, or wrong or nested too deep at one place.
pub fn one_outcome()
    ensures { (ts : List PlacedToken) → (x : Outcome) × IsOutcome ts x × ((y : Outcome) → IsOutcome ts y → y ≡ x) }
{}

/// The statement that the tokens spell, all of them.
///
/// # Errors
/// `Syntax` and `Nesting` at the token that is wrong or opens one group too many, and `Memory`.
pub fn read_statement<'a>(alloc: Global, tokens: &'a [Placed<'a>]) -> Result<Statement<'a>, Refusal>
    ensures read { IfOk result (λ s. Spells (map placed_of tokens.now) s) }
    ensures refused { IfErr result (λ e. AreRefused (map placed_of tokens.now) e) }
{
    let mut cursor = Cursor::new(tokens);
    let read = statement(&mut cursor, alloc, NESTING_LIMIT);
    let at = tokens.len() - cursor.remaining();
    match read {
        Ok(read) => {
            if cursor.is_at_end() {
                Ok(read)
            } else {
                Err(Refusal::Syntax { at })
            }
        }
        Err(stop) => Err(refused(stop, at)),
    }
}

// The refusal at a place, for the cause of a reader.
fn refused(stop: Stop, at: usize) -> Refusal
    ensures { result ≡ refused_at at stop }
{
    match stop {
        Stop::Syntax => Refusal::Syntax { at },
        Stop::Nesting => Refusal::Nesting { at },
        Stop::Memory => Refusal::Memory,
    }
}
