//! Tokens of scripts: names, numbers, keywords and signs, cut by the longest match.
#![tactic(auto)]

mod kind;
mod token;

ghost use Rattle.std.specs.Prelude.{◌≡◌, ◌<◌, ◌≤◌, ℕ, ◌+◌, List, [], ◌∷◌, Some, length, All, slice_index_or, nat_eq, IsTrue};
ghost use Rattle.std.specs.List.{starts_with, AllPairs};
ghost use Rattle.script_tokens.specs.declared.kind.Kind.{Kind as AnyKind};
ghost use Rattle.script_tokens.specs.Kinds.{spelled};
ghost use Rattle.script_tokens.specs.Lexing.{sign_in, tokens_of};
ghost use Rattle.script_tokens.specs.Naming.{AreNamed};
ghost use Rattle.script_tokens.specs.Tokens.{Sign};

pub use kind::{KEYWORDS, Kind, SIGNS};
pub use token::{Placed, Token, tokens};

/// The sign that is taken is the longest one with which the bytes begin.
pub fn takes_the_longest_sign()
    ensures { (bytes : List ℕ) (taken : AnyKind) → sign_in SIGNS bytes ≡ Some taken → (at : ℕ) (other : AnyKind) → at < length SIGNS → IsTrue (starts_with nat_eq bytes (spelled (slice_index_or SIGNS at other))) → length (spelled (slice_index_or SIGNS at other)) ≤ length (spelled taken) }
{}

/// The spelling of each keyword and sign is read as that one token.
pub fn spellings_are_read()
    ensures { (place : ℕ) (kind : AnyKind) → tokens_of place (spelled kind) ≡ record { token = Sign kind; place = place } ∷ [] }
{}

/// Each byte is of one token at most.
pub fn tokens_are_few()
    ensures { (place : ℕ) (bytes : List ℕ) → length (tokens_of place bytes) ≤ length bytes }
{}

/// What is taken as a name is a word that is no keyword.
pub fn names_are_words()
    ensures { (place : ℕ) (bytes : List ℕ) → AreNamed (tokens_of place bytes) }
{}

/// The tokens stand at places of the bytes, in rising order.
pub fn places_are_inside()
    ensures within { (place : ℕ) (bytes : List ℕ) → All (λ t. (place ≤ t.place) × (t.place < place + length bytes)) (tokens_of place bytes) }
    ensures rising { (place : ℕ) (bytes : List ℕ) → AllPairs (λ s t. s.place < t.place) (tokens_of place bytes) }
{}
