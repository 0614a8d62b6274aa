//! Reading guards of loops.

ghost use Rattle.std.specs.Prelude.{◌≡◌, ◌≤◌, length, map};
ghost use Rattle.parser_laws.specs.Parsing.{res_map, both, items};
ghost use Rattle.script_tokens.specs.declared.kind.Kind.TheVariants as kind;
ghost use Rattle.script_grammar.specs.Views.{is, sign};
ghost use Rattle.script_grammar.specs.Statements.{bound, bound_view, bounded, guard};
ghost use Rattle.script_syntax.specs.Reading.{Agrees, view_at};
ghost use Rattle.script_syntax.specs.Trees.{without_place};
ghost use Rattle.script_statements.specs.Loops.{bound_of, bound_shown, constraint_of, constraint_shape, constraints_read, constraints_shape, guard_shape};

use crate::tree::{Bound, Constraint};
use script_syntax::{Cursor, Stop};
use script_tokens::{Kind, Placed, Token};
use std::alloc::Global;

// The relation of a guard that is in hand, if there is one.
fn bound_in_hand(cursor: &Cursor<'_>) -> Option<Bound>
    ensures { bound_shown result ≡ view_at bound_view cursor.now }
{
    match cursor.token() {
        Some(
            Placed {
                token: Token::Sign(Kind::AtMost),
                ..
            },
        ) => Some(Bound::AtMost),
        Some(
            Placed {
                token: Token::Sign(Kind::Below),
                ..
            },
        ) => Some(Bound::Below),
        Some(
            Placed {
                token: Token::Sign(Kind::AtLeast),
                ..
            },
        ) => Some(Bound::AtLeast),
        Some(
            Placed {
                token: Token::Sign(Kind::Above),
                ..
            },
        ) => Some(Bound::Above),
        Some(
            Placed {
                token: Token::Sign(Kind::Equals),
                ..
            },
        ) => Some(Bound::Equal),
        _ => None,
    }
}

// A relation of a guard.
fn read_bound(cursor: &mut Cursor<'_>) -> Result<Bound, Stop>
    ensures answer { Agrees bound_of (res_map without_place (bound.parse cursor.old)) result cursor.old cursor.new }
    ensures onward { length cursor.new ≤ length cursor.old }
{
    match bound_in_hand(cursor) {
        Some(bound) => {
            cursor.step();
            Ok(bound)
        }
        None => Err(Stop::Syntax),
    }
}

// term bound term
fn read_constraint<'a>(cursor: &mut Cursor<'a>, alloc: Global) -> Result<Constraint<'a>, Stop>
    ensures answer { Agrees constraint_of (res_map constraint_shape (bounded.parse cursor.old)) result cursor.old cursor.new }
    ensures onward { length cursor.new ≤ length cursor.old }
{
    let left = match cursor.term(alloc) {
        Ok(left) => left,
        Err(stop) => return Err(stop),
    };
    let bound = match read_bound(cursor) {
        Ok(bound) => bound,
        Err(stop) => return Err(stop),
    };
    match cursor.term(alloc) {
        Ok(right) => Ok(Constraint { left, bound, right }),
        Err(stop) => Err(stop),
    }
}

// { and term bound term }, behind the constraints that were read.
fn more_constraints<'a>(
    cursor: &mut Cursor<'a>,
    alloc: Global,
    first: Vec<Constraint<'a>>,
) -> Result<Vec<Constraint<'a>>, Stop>
    ensures answer { Agrees (λ v. map constraint_of v.items) (constraints_read (length cursor.old) (map constraint_of first.entry.items) cursor.old) result cursor.old cursor.new }
    ensures onward { length cursor.new ≤ length cursor.old }
{
    let mut constraints = first;
    while cursor.is_at(Kind::And) {
        cursor.step();
        let next = match read_constraint(cursor, alloc) {
            Ok(next) => next,
            Err(stop) => return Err(stop),
        };
        match constraints.push(next) {
            Ok(()) => {}
            Err(_) => return Err(Stop::Memory),
        }
    }
    Ok(constraints)
}

// term bound term { and term bound term }
fn constraints<'a>(cursor: &mut Cursor<'a>, alloc: Global) -> Result<Vec<Constraint<'a>>, Stop>
    ensures answer { Agrees (λ v. map constraint_of v.items) (res_map constraints_shape ((both bounded (items (is kind.And) (both (sign kind.And) bounded))).parse cursor.old)) result cursor.old cursor.new }
    ensures onward { length cursor.new ≤ length cursor.old }
{
    let first = match read_constraint(cursor, alloc) {
        Ok(first) => first,
        Err(stop) => return Err(stop),
    };
    let mut constraints = Vec::new(alloc);
    match constraints.push(first) {
        Ok(()) => {}
        Err(_) => return Err(Stop::Memory),
    }
    more_constraints(cursor, alloc, constraints)
}

// true | constraints
pub(crate) fn read_guard<'a>(
    cursor: &mut Cursor<'a>,
    alloc: Global,
) -> Result<Vec<Constraint<'a>>, Stop>
    ensures answer { Agrees (λ v. map constraint_of v.items) (res_map guard_shape (guard.parse cursor.old)) result cursor.old cursor.new }
    ensures onward { length cursor.new ≤ length cursor.old }
{
    if !cursor.is_at(Kind::True) {
        return constraints(cursor, alloc);
    }
    match cursor.expect(Kind::True) {
        Ok(()) => Ok(Vec::new(alloc)),
        Err(stop) => Err(stop),
    }
}
