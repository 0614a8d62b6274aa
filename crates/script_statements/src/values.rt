//! Reading the values of a test.

ghost use Rattle.std.specs.Prelude.{◌≡◌, ◌≤◌, length, map};
ghost use Rattle.parser_laws.specs.Parsing.{res_map, both, items, perhaps, starts_with};
ghost use Rattle.script_tokens.specs.declared.kind.Kind.TheVariants as kind;
ghost use Rattle.script_grammar.specs.Views.{is, sign, positive};
ghost use Rattle.script_grammar.specs.Statements.{value, starts_value, values};
ghost use Rattle.script_syntax.specs.Reading.{Agrees};
ghost use Rattle.script_statements.specs.Values.{positive_shape, denominator_shape, rational_of, value_shape, values_read, some_values_shape, values_shape};

use crate::tree::Rational;
use script_syntax::{Cursor, Stop};
use script_tokens::{Kind, Placed, Token};
use std::alloc::Global;

// A number that is not zero.
fn positive(cursor: &mut Cursor<'_>) -> Result<u128, Stop>
    ensures answer { Agrees (λ n. n) (res_map positive_shape (positive.parse cursor.old)) result cursor.old cursor.new }
    ensures onward { length cursor.new ≤ length cursor.old }
{
    match cursor.token() {
        Some(
            Placed {
                token: Token::Number(number),
                ..
            },
        ) => {
            if number == 0 {
                return Err(Stop::Syntax);
            }
            cursor.step();
            Ok(number)
        }
        _ => Err(Stop::Syntax),
    }
}

// [/ positive]
fn denominator(cursor: &mut Cursor<'_>) -> Result<u128, Stop>
    ensures answer { Agrees (λ n. n) (res_map denominator_shape ((perhaps (is kind.Slash) (both (sign kind.Slash) positive)).parse cursor.old)) result cursor.old cursor.new }
    ensures onward { length cursor.new ≤ length cursor.old }
{
    if !cursor.is_at(Kind::Slash) {
        return Ok(1);
    }
    match cursor.expect(Kind::Slash) {
        Ok(()) => positive(cursor),
        Err(stop) => Err(stop),
    }
}

// [-] number [/ positive]
fn value(cursor: &mut Cursor<'_>) -> Result<Rational, Stop>
    ensures answer { Agrees rational_of (res_map value_shape (value.parse cursor.old)) result cursor.old cursor.new }
    ensures onward { length cursor.new ≤ length cursor.old }
{
    let minus = cursor.minus();
    let numerator = match cursor.number() {
        Ok(numerator) => numerator,
        Err(stop) => return Err(stop),
    };
    match denominator(cursor) {
        Ok(denominator) => Ok(Rational {
            minus,
            numerator,
            denominator,
        }),
        Err(stop) => Err(stop),
    }
}

// { , value }, behind the values that were read.
fn more_values(cursor: &mut Cursor<'_>, first: Vec<Rational>) -> Result<Vec<Rational>, Stop>
    ensures answer { Agrees (λ v. map rational_of v.items) (values_read (length cursor.old) (map rational_of first.items) cursor.old) result cursor.old cursor.new }
    ensures onward { length cursor.new ≤ length cursor.old }
{
    let mut values = first;
    while cursor.is_at(Kind::Comma) {
        cursor.step();
        let value = match value(cursor) {
            Ok(value) => value,
            Err(stop) => return Err(stop),
        };
        match values.push(value) {
            Ok(()) => {}
            Err(_) => return Err(Stop::Memory),
        }
    }
    Ok(values)
}

// value { , value }
fn some_values(cursor: &mut Cursor<'_>, alloc: Global) -> Result<Vec<Rational>, Stop>
    ensures answer { Agrees (λ v. map rational_of v.items) (res_map some_values_shape ((both value (items (is kind.Comma) (both (sign kind.Comma) value))).parse cursor.old)) result cursor.old cursor.new }
    ensures onward { length cursor.new ≤ length cursor.old }
{
    let value = match value(cursor) {
        Ok(value) => value,
        Err(stop) => return Err(stop),
    };
    let mut values = Vec::new(alloc);
    match values.push(value) {
        Ok(()) => {}
        Err(_) => return Err(Stop::Memory),
    }
    more_values(cursor, values)
}

// Whether a value begins with the token in hand.
fn begins_value(cursor: &Cursor<'_>) -> bool
    ensures { result ≡ starts_with starts_value cursor.now }
{
    match cursor.token() {
        Some(
            Placed {
                token: Token::Sign(Kind::Minus),
                ..
            },
        ) => true,
        Some(
            Placed {
                token: Token::Number(_),
                ..
            },
        ) => true,
        _ => false,
    }
}

// [ value { , value } ]
pub(crate) fn values(cursor: &mut Cursor<'_>, alloc: Global) -> Result<Vec<Rational>, Stop>
    ensures answer { Agrees (λ v. map rational_of v.items) (res_map values_shape (values.parse cursor.old)) result cursor.old cursor.new }
    ensures onward { length cursor.new ≤ length cursor.old }
{
    if begins_value(cursor) {
        some_values(cursor, alloc)
    } else {
        Ok(Vec::new(alloc))
    }
}
