//! Tokens with their places, and how bytes are cut into them (longest match). One pass; each byte is looked at a few times.

ghost use Rattle.std.specs.Prelude.{◌≡◌, ℕ, ◌<◌, ◌≤◌, ◌+◌, ◌-◌, ◌^◌, Bool, true, false, Option, IfOk, IfSome, List, [], ◌∷◌, length, take, drop, map, min, All, IsTrue, slice_index};
ghost use Rattle.std.specs.List.{prefix_len};
ghost use Rattle.lash_model.specs.Letters.{number};
ghost use Rattle.formula_core.specs.Names.{is_in_word, is_digit, begins_word};
ghost use Rattle.script_tokens.specs.Lexing.{blank_length, is_bad as is_bad_token, is_blank as is_blank_byte, keyword_in, sign_in, number_limit, tokens_of};
ghost use Rattle.script_tokens.specs.Lexing.{lexeme as lexeme_at, word_lexeme as word_lexeme_at, number_lexeme as number_lexeme_at, sign_lexeme as sign_lexeme_at};
ghost use Rattle.script_tokens.specs.Shape.{token_of, placed_of, lexeme_of};
ghost use Rattle.script_tokens.specs.Kinds.{spelled};

use crate::kind::{KEYWORDS, Kind, SIGNS};
use lash_io::Memory;
use std::alloc::Global;

/// A name, a number that counts at most as 2^64 + 1, a keyword or sign, or a byte that begins no token.
#[derive(Clone, Copy, Debug)]
pub enum Token<'a> {
    Name(&'a [u8]),
    Number(u128),
    Sign(Kind),
    Bad,
}

/// A token with the number of script bytes before it.
#[derive(Clone, Copy, Debug)]
pub struct Placed<'a> {
    pub token: Token<'a>,
    pub place: u64,
}

/// The tokens of bytes that begin at a place of the script, up to the first byte that begins no token. The places fit in 64 bits, as
/// a condition.
pub fn tokens<'a>(alloc: Global, bytes: &'a [u8], place: u64) -> Result<Vec<Placed<'a>>, Memory>
    requires { place + length bytes.now < 2 ^ 64 }
    ensures { IfOk result (λ ts. map placed_of ts.items ≡ tokens_of place bytes.now) }
{
    let mut placed = Vec::new(alloc);
    let mut at = blanks(bytes);
    while at < bytes.len() {
        let found = first_lexeme(&bytes[at..], bytes[at]);
        let token = Placed {
            token: found.token,
            place: place + at as u64,
        };
        match placed.push(token) {
            Ok(()) => {}
            Err(_) => return Err(Memory),
        }
        if found.token.is_bad() {
            return Ok(placed);
        }
        at += found.size;
        at += blanks(&bytes[at..]);
    }
    Ok(placed)
}

impl<'a> Token<'a> {
    // Whether it is a byte that begins no token.
    fn is_bad(self) -> bool
        ensures { result ≡ is_bad_token (token_of self.entry) }
    {
        matches!(self, Token::Bad)
    }
}

// How many blanks and bytes of comments the bytes begin with.
fn blanks(bytes: &[u8]) -> usize
    ensures count { result ≡ blank_length false bytes.now }
    ensures within { result ≤ length bytes.now }
{
    let mut in_comment = false;
    for (count, byte) in bytes.iter().enumerate() {
        if in_comment {
            in_comment = *byte != b'\n';
        } else if *byte == b'#' {
            in_comment = true;
        } else if !is_blank(*byte) {
            return count;
        }
    }
    bytes.len()
}

fn is_blank(byte: u8) -> bool
    ensures { result ≡ is_blank_byte byte }
{
    byte == b' ' || byte == b'\t' || byte == b'\r' || byte == b'\n'
}

fn begins_a_word(byte: u8) -> bool
    ensures { result ≡ begins_word byte }
{
    byte.is_ascii_alphabetic() || byte == b'_'
}

fn goes_on_a_word(byte: u8) -> bool
    ensures { result ≡ is_in_word byte }
{
    begins_a_word(byte) || byte.is_ascii_digit()
}

// How many bytes of a word the bytes begin with.
fn word_length(bytes: &[u8]) -> usize
    ensures count { result ≡ prefix_len is_in_word bytes.now }
    ensures within { result ≤ length bytes.now }
{
    for (count, byte) in bytes.iter().enumerate() {
        if !goes_on_a_word(*byte) {
            return count;
        }
    }
    bytes.len()
}

// How many digits the bytes begin with.
fn digits_length(bytes: &[u8]) -> usize
    ensures count { result ≡ prefix_len is_digit bytes.now }
    ensures within { result ≤ length bytes.now }
{
    for (count, byte) in bytes.iter().enumerate() {
        if !byte.is_ascii_digit() {
            return count;
        }
    }
    bytes.len()
}

// The first of the kinds that is spelled as the word.
fn keyword(kinds: &[Kind], word: &[u8]) -> Option<Kind>
    ensures { result ≡ keyword_in kinds.now word.now }
{
    for kind in kinds {
        if kind.text() == word {
            return Some(*kind);
        }
    }
    None
}

// The first of the kinds that the bytes begin with.
fn sign(kinds: &[Kind], bytes: &[u8]) -> Option<Kind>
    ensures sign { result ≡ sign_in kinds.now bytes.now }
    ensures within { IfSome result (λ kind. length (spelled kind) ≤ length bytes.now) }
{
    for kind in kinds {
        if bytes.starts_with(kind.text()) {
            return Some(*kind);
        }
    }
    None
}

// The number of decimal digits, or 2^64 + 1 where it is greater.
fn number_of(digits: &[u8]) -> u128
    requires { All (λ b. IsTrue (is_digit b)) digits.now }
    ensures { result ≡ min (number 10 (map (λ b. b - 48) digits.now)) number_limit }
{
    let mut number = 0;
    for digit in digits {
        number = (number * 10 + (*digit - b'0') as u128).min(LIMIT);
    }
    number
}

// One more than the greatest number of a script.
const LIMIT: u128 = (1 << 64) + 1;

// A token and how many bytes it has.
#[derive(Clone, Copy)]
struct Lexeme<'a> {
    token: Token<'a>,
    size: usize,
}

// The token that the bytes begin with; the first of them is no blank.
fn first_lexeme<'a>(bytes: &'a [u8], first: u8) -> Lexeme<'a>
    requires { bytes.now ≡ first ∷ drop 1 bytes.now }
    ensures token { lexeme_of result ≡ lexeme_at first (drop 1 bytes.now) }
    ensures within { result.size ≤ length bytes.now }
    ensures some { 0 < result.size }
{
    if begins_a_word(first) {
        word_lexeme(bytes)
    } else if first.is_ascii_digit() {
        number_lexeme(bytes)
    } else {
        sign_lexeme(bytes)
    }
}

fn word_lexeme<'a>(bytes: &'a [u8]) -> Lexeme<'a>
    requires { IsTrue (begins_word (slice_index bytes.now 0)) }
    ensures token { lexeme_of result ≡ word_lexeme_at bytes.now }
    ensures within { result.size ≤ length bytes.now }
    ensures some { 0 < result.size }
{
    let size = word_length(bytes);
    let word = &bytes[..size];
    let token = match keyword(&KEYWORDS, word) {
        Some(kind) => Token::Sign(kind),
        None => Token::Name(word),
    };
    Lexeme { token, size }
}

fn number_lexeme<'a>(bytes: &'a [u8]) -> Lexeme<'a>
    requires { IsTrue (is_digit (slice_index bytes.now 0)) }
    ensures token { lexeme_of result ≡ number_lexeme_at bytes.now }
    ensures within { result.size ≤ length bytes.now }
    ensures some { 0 < result.size }
{
    let size = digits_length(bytes);
    Lexeme {
        token: Token::Number(number_of(&bytes[..size])),
        size,
    }
}

fn sign_lexeme<'a>(bytes: &'a [u8]) -> Lexeme<'a>
    requires { 0 < length bytes.now }
    ensures token { lexeme_of result ≡ sign_lexeme_at (sign_in SIGNS bytes.now) }
    ensures within { result.size ≤ length bytes.now }
    ensures some { 0 < result.size }
{
    match sign(&SIGNS, bytes) {
        Some(kind) => Lexeme {
            token: Token::Sign(kind),
            size: kind.text().len(),
        },
        None => Lexeme {
            token: Token::Bad,
            size: 1,
        },
    }
}
