//! From the bytes of a piece to its statement: tokens, the tree, and what the statement asks.

ghost use Rattle.std.specs.Prelude.{◌≡◌, ◌≤◌, ◌+◌, ◌^◌, None, false, length, map};
ghost use Rattle.script_tokens.specs.Lexing.{tokens_of};
ghost use Rattle.script_tokens.specs.Naming.{AreNamed};
ghost use Rattle.script_tokens.specs.Shape.{placed_of};
ghost use Rattle.script_pieces.specs.Cuts.{statement_length};
ghost use Rattle.script_names.specs.Kept.{sets_of};
ghost use Rattle.script_statements.specs.Statements.{statement_of};
ghost use Rattle.statement_meaning.specs.Judging.{IsStatementReadable};
ghost use Rattle.script_parse.specs.Answers.{AnswersRest, AnswersTokens, AnswersStatement, place_at};

use crate::errors::ScriptError;
use digit_codes::Base;
use script_meaning::{Refusal as StatementRefusal, Which};
use script_names::{Defs, FaultAt};
use script_statements::{Refusal, Statement as Tree, read_statement};
use script_tokens::{Placed, tokens};
use statement_meaning::{Statement, judge};
use std::alloc::Global;

/// The statement that the bytes of a piece spell, where these sets are kept. The piece stands behind `given` script bytes, and has at most
/// 65,536 bytes.
pub fn read_piece(
    alloc: Global,
    base: Base,
    defs: &Defs,
    piece: &[u8],
    given: u64,
) -> Result<Statement, ScriptError>
    requires few { length piece.now ≤ 65536 }
    requires place { given ≤ 2 ^ 32 }
    ensures { AnswersTokens base (sets_of defs.now) (given + length piece.now) (tokens_of given piece.now) result }
{
    match tokens(alloc, piece, given) {
        Ok(tokens) => read_tokens(alloc, base, defs, &tokens, given + piece.len() as u64),
        Err(_) => Err(ScriptError::Memory),
    }
}

/// The same of bytes that hold no whole statement. They are well where they hold no token.
pub fn read_rest(
    alloc: Global,
    base: Base,
    defs: &Defs,
    piece: &[u8],
    given: u64,
) -> Result<(), ScriptError>
    requires few { length piece.now ≤ 65536 }
    requires place { given ≤ 2 ^ 32 }
    requires unended { statement_length false piece.now ≡ None }
    ensures { AnswersRest base (sets_of defs.now) given piece.now result }
{
    let tokens = match tokens(alloc, piece, given) {
        Ok(tokens) => tokens,
        Err(_) => return Err(ScriptError::Memory),
    };
    if tokens.is_empty() {
        return Ok(());
    }
    match read_tokens(alloc, base, defs, &tokens, given + piece.len() as u64) {
        // Each statement ends with a semicolon, and the tokens hold none.
        Ok(_) => Ok(()),
        Err(error) => Err(error),
    }
}

// The statement that the tokens spell. They end at a place.
fn read_tokens(
    alloc: Global,
    base: Base,
    defs: &Defs,
    tokens: &[Placed<'_>],
    end: u64,
) -> Result<Statement, ScriptError>
    requires few { length tokens.now ≤ 65536 }
    requires named { AreNamed (map placed_of tokens.now) }
    ensures { AnswersTokens base (sets_of defs.now) end (map placed_of tokens.now) result }
{
    match read_statement(alloc, tokens) {
        Ok(tree) => judged(alloc, base, defs, &tree),
        Err(Refusal::Syntax { at }) => Err(ScriptError::Syntax {
            place: place_of(tokens, at, end),
        }),
        Err(Refusal::Nesting { .. }) => Err(ScriptError::Limit {
            which: Which::Nesting,
        }),
        Err(Refusal::Memory) => Err(ScriptError::Memory),
    }
}

// The place of a token, or of the end behind the last.
fn place_of(tokens: &[Placed<'_>], at: usize, end: u64) -> u64
    ensures { result ≡ place_at end (map placed_of tokens.now) at }
{
    if at < tokens.len() {
        tokens[at].place
    } else {
        end
    }
}

// What a statement asks.
fn judged(alloc: Global, base: Base, defs: &Defs, tree: &Tree<'_>) -> Result<Statement, ScriptError>
    requires readable { IsStatementReadable (statement_of tree.now) }
    ensures { AnswersStatement base (sets_of defs.now) (statement_of tree.now) result }
{
    match judge(alloc, base, defs, tree) {
        Ok(statement) => Ok(statement),
        Err(StatementRefusal::Fault(FaultAt { fault, place })) => Err(ScriptError::Name {
            fault,
            place,
        }),
        Err(StatementRefusal::Limit(which)) => Err(ScriptError::Limit { which }),
        Err(StatementRefusal::Memory) => Err(ScriptError::Memory),
    }
}
