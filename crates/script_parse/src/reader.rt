//! The reader of statements over a source.

ghost use Rattle.std.specs.Prelude.{◌≡◌, ◌≤◌, ◌+◌, [], true, false, length, IfOk};
ghost use Rattle.script_pieces.specs.Limits.{script_bytes_limit};
ghost use Rattle.script_pieces.specs.Taking.{IsOpen};
ghost use Rattle.script_parse.specs.Answers.{EndsRest, GivesStatement, Says, error_of, goes_on};
ghost use Rattle.script_pieces.specs.Answers.{IsStatement};
ghost use Rattle.script_names.specs.Kept.{sets_of};

use crate::errors::ScriptError;
use crate::piece::{read_piece, read_rest};
use digit_codes::Base;
use lash_io::{Memory, Source};
use script_meaning::Which;
use script_names::Defs;
use script_pieces::{Ahead, PieceError, Pieces};
use statement_meaning::Statement;
use std::alloc::Global;
use std::marker::Model;

/// A reader of the statements of a script, seen as the base of their limits, how far it has come in the script, and whether it is live.
#[derive(Drop)]
pub struct Statements {
    base: Base,
    pieces: Pieces,
    live: bool,
}

impl Model for Statements {
    ghost use Rattle.script_parse.specs.Answers.{State};

    ghost Value = { State };

    ghost view = { λ s. record { base = s.base; progress = s.pieces; live = s.live } };
}

impl Statements {
    /// A reader that has taken nothing, and is live. Takes its buffer of 131,072 bytes at once, and fails only for want of memory.
    pub fn new(alloc: Global, base: Base) -> Result<Statements, Memory>
        ensures { IfOk result (λ s. s ≡ record { base = base; progress = record { given = 0; held = [] }; live = true }) }
    {
        match Pieces::new(alloc) {
            Ok(pieces) => Ok(Statements {
                base,
                pieces,
                live: true,
            }),
            Err(memory) => Err(memory),
        }
    }

    /// Whether the reader may go on: until `next` has answered None or an error.
    pub fn live(&self) -> bool
        ensures { result ≡ self.now.live }
    {
        self.live
    }

    /// The next statement of the script, where these sets are kept, or None at its end. The reader is live, as a condition.
    ///
    /// # Errors
    /// `Read` if a read met a fault; else, of the first piece of the bytes ahead, `Limit` if it has too many bytes, `Syntax` and `Limit` of
    /// the nesting at the first wrong token or group too many, `Name` at the first wrong name, and `Limit` for the first limit that its
    /// statement passes. `Memory` may come besides.
    pub fn next<S: Source>(
        &mut self,
        alloc: Global,
        defs: &Defs,
        source: &mut S,
    ) -> Result<Option<Statement>, ScriptError>
        requires { self.old.live ≡ true }
        ensures base { self.new.base ≡ self.old.base }
        ensures live { self.new.live ≡ goes_on result }
        ensures says { Says self.old.base (sets_of defs.now) self.old.progress self.new.progress (S.left source.old) (S.left source.new) (S.faults source.old) (S.faults source.new) result }
        ensures count { S.faults source.old ≤ S.faults source.new }
        ensures idle { (IsOpen self.old.progress → ⊥) → source.new ≡ source.old }
        ensures most { self.new.progress.given + length self.new.progress.held ≤ script_bytes_limit + 1 }
    {
        self.live = false;
        match self.pieces.fetch(source) {
            Ok(Ahead::Statement(size)) => self.statement(alloc, defs, size),
            Ok(Ahead::Rest) => self.rest(alloc, defs),
            Err(error) => Err(long_piece(error)),
        }
    }

    // The statement of so many bytes that is held.
    fn statement(
        &mut self,
        alloc: Global,
        defs: &Defs,
        size: usize,
    ) -> Result<Option<Statement>, ScriptError>
        requires ahead { IsStatement self.old.progress size }
        requires dead { self.old.live ≡ false }
        ensures { GivesStatement (sets_of defs.now) self.old size self.new result }
    {
        match read_piece(
            alloc,
            self.base,
            defs,
            &self.pieces.held()[..size],
            self.pieces.given(),
        ) {
            Ok(statement) => {
                self.pieces.give(size);
                self.live = true;
                Ok(Some(statement))
            }
            Err(error) => Err(error),
        }
    }

    // The end, where what is held has no token.
    fn rest(&self, alloc: Global, defs: &Defs) -> Result<Option<Statement>, ScriptError>
        requires { IsOpen self.now.progress }
        ensures { EndsRest (sets_of defs.now) self.now result }
    {
        match read_rest(
            alloc,
            self.base,
            defs,
            self.pieces.held(),
            self.pieces.given(),
        ) {
            Ok(()) => Ok(None),
            Err(error) => Err(error),
        }
    }
}

// The error of a piece that was not fetched.
fn long_piece(error: PieceError) -> ScriptError
    ensures { result ≡ error_of error }
{
    match error {
        PieceError::Read => ScriptError::Read,
        PieceError::StatementBytes => ScriptError::Limit {
            which: Which::StatementBytes,
        },
        PieceError::ScriptBytes => ScriptError::Limit {
            which: Which::ScriptBytes,
        },
    }
}
