//! The reader that cuts a script into statements: bytes are taken from a source into a buffer of fixed size until they hold a whole
//! statement, pass a limit, or end. Own.
//!
//! It reads only while it has to, and never more than one byte past the limit of a script. The search for the end of a statement goes
//! on where it stopped, so each byte is looked at once, and is moved about once. It keeps the bytes of a statement until they are
//! given, and knows nothing of tokens.
ghost use Rattle.std.specs.Prelude.{◌≡◌, ◌≤◌, ◌<◌, ◌+◌, ℕ, false, [], ◌++◌, length, drop, IfSome, IfOk, IfErr, OnErr, MatchOption, MatchResult};
ghost use Rattle.std.specs.Io.KnownBytes.{IsAtEnd};
ghost use Rattle.lash_io.specs.Faults.{IsFaultCounted};
ghost use Rattle.script_pieces.specs.Cuts.{statement_length, piece_length};
ghost use Rattle.script_pieces.specs.Limits.{script_bytes_limit, IsRefused};
ghost use Rattle.script_pieces.specs.Taking.{Progress, IsOpen, Takes, IsNeeded, buffer_bytes};
ghost use Rattle.script_pieces.specs.Answers.{IsAhead, IsFailure, IsStatement};

use crate::answers::Ahead;
use crate::errors::PieceError;
use crate::limits::{SCRIPT_BYTES, within_limits};
use crate::search::pass_over;
use crate::window::Window;
use lash_io::{Failed, Memory, Source};
use std::alloc::Global;
use std::marker::Model;

/// A reader of pieces, seen as the number of bytes given so far and the bytes taken and not yet given.
#[derive(Drop)]
pub struct Pieces {
    window: Window,
    given: u64,
    /// How many of the bytes held were searched, and whether what follows them stands in a comment.
    scanned: usize,
    in_comment: bool,
}

impl Model for Pieces {
    ghost use Rattle.script_pieces.specs.Taking.{Progress};
    ghost use Rattle.script_pieces.specs.Searching.{IsKept};
    ghost use Rattle.script_pieces.specs.Windows.{items};

    ghost Value = { Progress };

    ghost view = { λ p. record { given = p.given; held = items p.window } };

    ghost invariant = { λ p. IsKept p.given (items p.window) p.scanned p.in_comment };
}

impl Pieces {
    /// A reader that has taken nothing. Takes its buffer of 131,072 bytes, and fails only for want of memory.
    pub fn new(alloc: Global) -> Result<Pieces, Memory>
        ensures { IfOk result (λ p. p ≡ record { given = 0; held = [] }) }
    {
        match Window::new(alloc) {
            Ok(window) => Ok(Pieces {
                window,
                given: 0,
                scanned: 0,
                in_comment: false,
            }),
            Err(memory) => Err(memory),
        }
    }

    /// The bytes held: those that were taken and not yet given.
    pub fn held(&self) -> &[u8]
        ensures { result.now ≡ self.now.held }
    {
        self.window.held()
    }

    /// How many bytes of the script were given so far.
    pub fn given(&self) -> u64
        ensures { result ≡ self.now.given }
    {
        self.given
    }

    /// Gives the first bytes held, of which there are so many at least: they are held no longer.
    pub fn give(&mut self, count: usize)
        requires { count ≤ length self.old.held }
        ensures given { self.new.given ≡ self.old.given + count }
        ensures held { self.new.held ≡ drop count self.old.held }
    {
        self.window.give(count);
        self.given += count as u64;
        self.scanned = 0;
        self.in_comment = false;
    }

    /// Takes bytes until it is known what is ahead: a whole statement, or all the bytes that are left where they hold none. They are
    /// among the bytes held then.
    ///
    /// Fails where a read met a fault (`Read`), or where the piece ahead passes a limit: a statement has 65,536 bytes at the most, and
    /// a script 16,777,216. The limit whose first byte past it comes first is named, the statement's where both come together. A
    /// failed call keeps what it took, and may be made again.
    pub fn fetch<S: Source>(&mut self, source: &mut S) -> Result<Ahead, PieceError>
        ensures kept { Takes self.old self.new (S.left source.old) (S.left source.new) }
        ensures ahead { IfOk result (λ ahead. IsAhead ahead self.new (S.left source.new)) }
        ensures cause { IfErr result (λ e. IsFailure e self.new (S.left source.new) (S.faults source.old) (S.faults source.new)) }
        // The bytes held before the last ones were taken did not tell how their piece ends, and the last ones are no more than the buffer
        // holds; where those held tell it, the source is not read.
        ensures needed { IsNeeded self.old self.new }
        ensures idle { (IsOpen self.old → ⊥) → source.new ≡ source.old }
        ensures most { self.new.given + length self.new.held ≤ script_bytes_limit + 1 }
        ensures count { S.faults source.old ≤ S.faults source.new }
    {
        'reads: loop {
            match self.told() {
                Some(Ok(size)) => return Ok(Ahead::Statement(size)),
                Some(Err(refusal)) => return Err(refusal),
                None => {}
            }
            match self.take_more(source) {
                Ok(0) => return Ok(Ahead::Rest),
                Ok(_) => {}
                Err(_) => return Err(PieceError::Read),
            }
        }
    }

    // What the bytes held tell of the piece ahead: the length of a whole statement, or the limit that it passes. None where more bytes
    // must be taken.
    fn told(&mut self) -> Option<Result<usize, PieceError>>
        ensures kept { self.new ≡ self.old }
        ensures most { self.new.given + length self.new.held ≤ script_bytes_limit + 1 }
        ensures told { MatchOption result (IsOpen self.new) (λ r. MatchResult r (IsStatement self.new) (λ e. IsRefused e self.new.given (piece_length self.new.held))) }
    {
        let found = self.find();
        let size = found.unwrap_or(self.window.held().len());
        match within_limits(self.given, size) {
            Err(refusal) => Some(Err(refusal)),
            Ok(()) => match found {
                Some(size) => Some(Ok(size)),
                None => None,
            },
        }
    }

    // The length of the first statement, where a whole one is held. Goes on where the last search stopped.
    fn find(&mut self) -> Option<usize>
        ensures kept { self.new ≡ self.old }
        ensures length { result ≡ statement_length false self.new.held }
        ensures within { IfSome result (λ size. (0 < size) × (size ≤ length self.new.held)) }
    {
        let held = self.window.held();
        let found = pass_over(&held[self.scanned..], self.in_comment);
        let (passed, len) = (self.scanned + found.passed, held.len());
        self.scanned = passed;
        self.in_comment = found.in_comment;
        if passed < len { Some(passed + 1) } else { None }
    }

    // One read, of at most so many bytes as bring those taken to one past the limit of a script.
    fn take_more<S: Source>(&mut self, source: &mut S) -> Result<usize, Failed>
        requires { IsOpen self.old }
        ensures kept { Takes self.old self.new (S.left source.old) (S.left source.new) }
        ensures taken { IfOk result (λ count. length self.new.held ≡ length self.old.held + count) }
        ensures ended { IfOk result (λ count. count ≡ 0 → (self.new ≡ self.old) × IsAtEnd (S.left source.new)) }
        ensures most { self.new.given + length self.new.held ≤ script_bytes_limit + 1 }
        ensures room { length self.new.held ≤ buffer_bytes }
        ensures failed { OnErr result (self.new ≡ self.old) }
        ensures count { S.faults source.old ≤ S.faults source.new }
        ensures cause { OnErr result (IsFaultCounted (S.faults source.old) (S.faults source.new)) }
    {
        let taken = self.given + self.window.held().len() as u64;
        let most = (SCRIPT_BYTES + 1 - taken) as usize;
        self.window.read_from(source, most)
    }
}
