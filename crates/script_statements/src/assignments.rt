//! Reading assignments of loops.

ghost use Rattle.std.specs.Prelude.{◌≡◌, ◌≤◌, length, map};
ghost use Rattle.parser_laws.specs.Parsing.{res_map};
ghost use Rattle.script_grammar.specs.Statements.{assign, assigns};
ghost use Rattle.script_syntax.specs.Reading.{Agrees};
ghost use Rattle.script_statements.specs.Loops.{assignment_of, assignment_shape, assignments_read, assignments_shape};

use crate::tree::Assignment;
use script_syntax::{Cursor, Stop};
use script_tokens::Kind;
use std::alloc::Global;

// name := term
fn read_assignment<'a>(cursor: &mut Cursor<'a>, alloc: Global) -> Result<Assignment<'a>, Stop>
    ensures answer { Agrees assignment_of (res_map assignment_shape (assign.parse cursor.old)) result cursor.old cursor.new }
    ensures onward { length cursor.new ≤ length cursor.old }
{
    let name = match cursor.name() {
        Ok(name) => name,
        Err(stop) => return Err(stop),
    };
    match cursor.expect(Kind::Becomes) {
        Ok(()) => {}
        Err(stop) => return Err(stop),
    }
    match cursor.term(alloc) {
        Ok(term) => Ok(Assignment { name, term }),
        Err(stop) => Err(stop),
    }
}

// { , name := term }, behind the assignments that were read.
fn more_assignments<'a>(
    cursor: &mut Cursor<'a>,
    alloc: Global,
    first: Vec<Assignment<'a>>,
) -> Result<Vec<Assignment<'a>>, Stop>
    ensures answer { Agrees (λ v. map assignment_of v.items) (assignments_read (length cursor.old) (map assignment_of first.entry.items) cursor.old) result cursor.old cursor.new }
    ensures onward { length cursor.new ≤ length cursor.old }
{
    let mut assignments = first;
    while cursor.is_at(Kind::Comma) {
        cursor.step();
        let next = match read_assignment(cursor, alloc) {
            Ok(next) => next,
            Err(stop) => return Err(stop),
        };
        match assignments.push(next) {
            Ok(()) => {}
            Err(_) => return Err(Stop::Memory),
        }
    }
    Ok(assignments)
}

// name := term { , name := term }
pub(crate) fn read_assignments<'a>(
    cursor: &mut Cursor<'a>,
    alloc: Global,
) -> Result<Vec<Assignment<'a>>, Stop>
    ensures answer { Agrees (λ v. map assignment_of v.items) (res_map assignments_shape (assigns.parse cursor.old)) result cursor.old cursor.new }
    ensures onward { length cursor.new ≤ length cursor.old }
{
    let first = match read_assignment(cursor, alloc) {
        Ok(first) => first,
        Err(stop) => return Err(stop),
    };
    let mut assignments = Vec::new(alloc);
    match assignments.push(first) {
        Ok(()) => {}
        Err(_) => return Err(Stop::Memory),
    }
    more_assignments(cursor, alloc, assignments)
}
