//! A cursor over tokens.

ghost use Rattle.std.specs.Prelude.{◌≡◌, ◌<◌, ◌≤◌, length, drop, map, [], ◌↔◌, IsTrue};
ghost use Rattle.parser_laws.specs.Parsing.{starts_with, res_map};
ghost use Rattle.script_grammar.specs.Views.{is, is_kind, sign};
ghost use Rattle.script_tokens.specs.Shape.{placed_of, token_of};
ghost use Rattle.script_syntax.specs.Reading.{token_at, shown, forgotten, Agrees};

use script_tokens::{Kind, Placed, Token};
use std::marker::Model;

/// Why the reading of tokens stops.
#[derive(Clone, Copy, PartialEq, Eq, Debug)]
pub enum Stop {
    /// No statement goes on with the token in hand.
    Syntax,
    /// The token in hand opens one group too many.
    Nesting,
    Memory,
}

/// A place in a list of tokens, seen as the tokens that are left.
#[derive(Debug, Drop)]
pub struct Cursor<'a> {
    tokens: &'a [Placed<'a>],
    at: usize,
}

impl<'a> Model for Cursor<'a> {
    ghost use Rattle.std.specs.Prelude.{List, ◌≤◌, length, drop, map};
    ghost use Rattle.script_tokens.specs.Tokens.{PlacedToken};
    ghost use Rattle.script_tokens.specs.Shape.{placed_of};

    ghost Value = { List PlacedToken };

    ghost view = { λ c. map placed_of (drop c.at c.tokens.now) };

    ghost invariant = { λ c. c.at ≤ length c.tokens.now };
}

impl<'a> Cursor<'a> {
    /// At the first of the tokens.
    pub fn new(tokens: &'a [Placed<'a>]) -> Cursor<'a>
        ensures { result ≡ map placed_of tokens.now }
    {
        Cursor { tokens, at: 0 }
    }

    /// Whether no token is left.
    pub fn is_at_end(&self) -> bool
        ensures { IsTrue result ↔ (self.now ≡ []) }
    {
        self.token().is_none()
    }

    /// How many tokens are left.
    pub fn remaining(&self) -> usize
        ensures { result ≡ length self.now }
    {
        self.tokens.len() - self.at
    }

    /// The token in hand, if there is one.
    pub fn token(&self) -> Option<Placed<'a>>
        ensures { token_at self.now ≡ shown result }
    {
        if self.at < self.tokens.len() {
            Some(self.tokens[self.at])
        } else {
            None
        }
    }

    /// Goes on to the next token.
    pub fn step(&mut self)
        requires { 0 < length self.old }
        ensures { self.new ≡ drop 1 self.old }
    {
        self.at += 1;
    }

    /// Whether the token in hand is the keyword or sign.
    pub fn is_at(&self, kind: Kind) -> bool
        ensures { result ≡ starts_with (is kind) self.now }
    {
        match self.token() {
            Some(placed) => is_sign(placed.token, kind),
            None => false,
        }
    }

    /// Goes on behind the keyword or sign, which has to be in hand.
    ///
    /// # Errors
    /// `Syntax` where it is not.
    pub fn expect(&mut self, kind: Kind) -> Result<(), Stop>
        ensures answer { Agrees (λ u. u) (res_map forgotten ((sign kind).parse self.old)) result self.old self.new }
        ensures onward { length self.new ≤ length self.old }
    {
        if self.is_at(kind) {
            self.step();
            Ok(())
        } else {
            Err(Stop::Syntax)
        }
    }
}

// Whether the token is the keyword or sign.
fn is_sign(token: Token<'_>, kind: Kind) -> bool
    ensures { result ≡ is_kind kind (token_of token.entry) }
{
    match token {
        Token::Sign(held) => held == kind,
        _ => false,
    }
}
