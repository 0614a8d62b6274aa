//! Reading statements, by their first word.

ghost use Rattle.std.specs.Prelude.{◌≡◌, ◌≤◌, length, map};
ghost use Rattle.parser_laws.specs.Parsing.{res_map, both};
ghost use Rattle.script_tokens.specs.declared.kind.Kind.TheVariants as kind;
ghost use Rattle.script_grammar.specs.Views.{sign, name};
ghost use Rattle.script_grammar.specs.Terms.{declarations};
ghost use Rattle.script_grammar.specs.Statements.{header, closed, show, set, of_one, of_two, test, check, turn, loop, statement};
ghost use Rattle.script_syntax.specs.Reading.{Agrees};
ghost use Rattle.script_syntax.specs.Trees.{declaration_of, declarations_shape, named_of, tree_of};
ghost use Rattle.script_statements.specs.Statements.{looped, Print, Solve, Equal, Subset, closed_shape, after_sign, described_shape, show_shape, set_shape, one_name, two_names, test_shape, check_shape, turn_shape, loop_shape, statement_shape, comprehension_of, statement_of};

use crate::assignments::read_assignments;
use crate::guards::read_guard;
use crate::tree::{Comprehension, Loop, Statement};
use crate::values::values;
use script_syntax::{Cursor, Declaration, NameAt, Stop, Tree};
use script_tokens::Kind;
use std::alloc::Global;

// formula ;
fn closed_formula<'a>(cursor: &mut Cursor<'a>, alloc: Global, depth: u32) -> Result<Tree<'a>, Stop>
    ensures answer { Agrees tree_of (res_map closed_shape ((closed depth).parse cursor.old)) result cursor.old cursor.new }
    ensures onward { length cursor.new ≤ length cursor.old }
{
    let formula = match cursor.formula(alloc, depth) {
        Ok(formula) => formula,
        Err(stop) => return Err(stop),
    };
    match cursor.expect(Kind::Semicolon) {
        Ok(()) => Ok(formula),
        Err(stop) => Err(stop),
    }
}

// A keyword or sign, formula ;
fn marked_formula<'a>(
    cursor: &mut Cursor<'a>,
    kind: Kind,
    alloc: Global,
    depth: u32,
) -> Result<Tree<'a>, Stop>
    ensures answer { Agrees tree_of (res_map after_sign ((both (sign kind) (closed depth)).parse cursor.old)) result cursor.old cursor.new }
    ensures onward { length cursor.new ≤ length cursor.old }
{
    match cursor.expect(kind) {
        Ok(()) => closed_formula(cursor, alloc, depth),
        Err(stop) => Err(stop),
    }
}

// header, a sign, formula ;
fn comprehension<'a>(
    cursor: &mut Cursor<'a>,
    kind: Kind,
    alloc: Global,
    depth: u32,
) -> Result<Comprehension<'a>, Stop>
    ensures answer { Agrees comprehension_of (res_map described_shape ((both header (both (sign kind) (closed depth))).parse cursor.old)) result cursor.old cursor.new }
    ensures onward { length cursor.new ≤ length cursor.old }
{
    let vars = match cursor.header(alloc) {
        Ok(vars) => vars,
        Err(stop) => return Err(stop),
    };
    match marked_formula(cursor, kind, alloc, depth) {
        Ok(formula) => Ok(Comprehension { vars, formula }),
        Err(stop) => Err(stop),
    }
}

// show header : formula ;
fn read_show<'a>(cursor: &mut Cursor<'a>, alloc: Global, depth: u32) -> Result<Statement<'a>, Stop>
    ensures answer { Agrees statement_of (res_map show_shape ((show depth).parse cursor.old)) result cursor.old cursor.new }
    ensures onward { length cursor.new ≤ length cursor.old }
{
    match cursor.expect(Kind::Show) {
        Ok(()) => {}
        Err(stop) => return Err(stop),
    }
    match comprehension(cursor, Kind::Colon, alloc, depth) {
        Ok(shown) => Ok(Statement::Show(shown)),
        Err(stop) => Err(stop),
    }
}

// set name header = formula ;
fn read_set<'a>(cursor: &mut Cursor<'a>, alloc: Global, depth: u32) -> Result<Statement<'a>, Stop>
    ensures answer { Agrees statement_of (res_map set_shape ((set depth).parse cursor.old)) result cursor.old cursor.new }
    ensures onward { length cursor.new ≤ length cursor.old }
{
    match cursor.expect(Kind::Set) {
        Ok(()) => {}
        Err(stop) => return Err(stop),
    }
    let name = match cursor.name() {
        Ok(name) => name,
        Err(stop) => return Err(stop),
    };
    match comprehension(cursor, Kind::Equals, alloc, depth) {
        Ok(members) => Ok(Statement::Set(name, members)),
        Err(stop) => Err(stop),
    }
}

// A word, name ;
fn of_one_name<'a>(cursor: &mut Cursor<'a>, kind: Kind) -> Result<NameAt<'a>, Stop>
    ensures answer { Agrees named_of (res_map one_name ((of_one kind).parse cursor.old)) result cursor.old cursor.new }
    ensures onward { length cursor.new ≤ length cursor.old }
{
    match cursor.expect(kind) {
        Ok(()) => {}
        Err(stop) => return Err(stop),
    }
    let name = match cursor.name() {
        Ok(name) => name,
        Err(stop) => return Err(stop),
    };
    match cursor.expect(Kind::Semicolon) {
        Ok(()) => Ok(name),
        Err(stop) => Err(stop),
    }
}

// A word, name name ;
fn of_two_names<'a>(cursor: &mut Cursor<'a>, kind: Kind) -> Result<(NameAt<'a>, NameAt<'a>), Stop>
    ensures answer { Agrees (λ x. (named_of x.0, named_of x.1)) (res_map two_names ((of_two kind).parse cursor.old)) result cursor.old cursor.new }
    ensures onward { length cursor.new ≤ length cursor.old }
{
    match cursor.expect(kind) {
        Ok(()) => {}
        Err(stop) => return Err(stop),
    }
    let left = match cursor.name() {
        Ok(left) => left,
        Err(stop) => return Err(stop),
    };
    let right = match cursor.name() {
        Ok(right) => right,
        Err(stop) => return Err(stop),
    };
    match cursor.expect(Kind::Semicolon) {
        Ok(()) => Ok((left, right)),
        Err(stop) => Err(stop),
    }
}

// print name ;
fn read_print<'a>(cursor: &mut Cursor<'a>) -> Result<Statement<'a>, Stop>
    ensures answer { Agrees statement_of (res_map (λ x. Print (one_name x)) ((of_one kind.Print).parse cursor.old)) result cursor.old cursor.new }
    ensures onward { length cursor.new ≤ length cursor.old }
{
    match of_one_name(cursor, Kind::Print) {
        Ok(name) => Ok(Statement::Print(name)),
        Err(stop) => Err(stop),
    }
}

// solve name ;
fn read_solve<'a>(cursor: &mut Cursor<'a>) -> Result<Statement<'a>, Stop>
    ensures answer { Agrees statement_of (res_map (λ x. Solve (one_name x)) ((of_one kind.Solve).parse cursor.old)) result cursor.old cursor.new }
    ensures onward { length cursor.new ≤ length cursor.old }
{
    match of_one_name(cursor, Kind::Solve) {
        Ok(name) => Ok(Statement::Solve(name)),
        Err(stop) => Err(stop),
    }
}

// equal name name ;
fn read_equal<'a>(cursor: &mut Cursor<'a>) -> Result<Statement<'a>, Stop>
    ensures answer { Agrees statement_of (res_map (λ x. Equal (two_names x).0 (two_names x).1) ((of_two kind.Equal).parse cursor.old)) result cursor.old cursor.new }
    ensures onward { length cursor.new ≤ length cursor.old }
{
    match of_two_names(cursor, Kind::Equal) {
        Ok((left, right)) => Ok(Statement::Equal(left, right)),
        Err(stop) => Err(stop),
    }
}

// subset name name ;
fn read_subset<'a>(cursor: &mut Cursor<'a>) -> Result<Statement<'a>, Stop>
    ensures answer { Agrees statement_of (res_map (λ x. Subset (two_names x).0 (two_names x).1) ((of_two kind.Subset).parse cursor.old)) result cursor.old cursor.new }
    ensures onward { length cursor.new ≤ length cursor.old }
{
    match of_two_names(cursor, Kind::Subset) {
        Ok((left, right)) => Ok(Statement::Subset(left, right)),
        Err(stop) => Err(stop),
    }
}

// test name ( values ) ;
fn read_test<'a>(cursor: &mut Cursor<'a>, alloc: Global) -> Result<Statement<'a>, Stop>
    ensures answer { Agrees statement_of (res_map test_shape (test.parse cursor.old)) result cursor.old cursor.new }
    ensures onward { length cursor.new ≤ length cursor.old }
{
    match cursor.expect(Kind::Test) {
        Ok(()) => {}
        Err(stop) => return Err(stop),
    }
    let name = match cursor.name() {
        Ok(name) => name,
        Err(stop) => return Err(stop),
    };
    match cursor.expect(Kind::Open) {
        Ok(()) => {}
        Err(stop) => return Err(stop),
    }
    let values = match values(cursor, alloc) {
        Ok(values) => values,
        Err(stop) => return Err(stop),
    };
    match cursor.expect(Kind::Close) {
        Ok(()) => {}
        Err(stop) => return Err(stop),
    }
    match cursor.expect(Kind::Semicolon) {
        Ok(()) => Ok(Statement::Test(name, values)),
        Err(stop) => Err(stop),
    }
}

// check formula ;
fn read_check<'a>(cursor: &mut Cursor<'a>, alloc: Global, depth: u32) -> Result<Statement<'a>, Stop>
    ensures answer { Agrees statement_of (res_map check_shape ((check depth).parse cursor.old)) result cursor.old cursor.new }
    ensures onward { length cursor.new ≤ length cursor.old }
{
    match marked_formula(cursor, Kind::Check, alloc, depth) {
        Ok(formula) => Ok(Statement::Check(formula)),
        Err(stop) => Err(stop),
    }
}

// guard do assignments ;
fn turn<'a>(
    cursor: &mut Cursor<'a>,
    alloc: Global,
    name: NameAt<'a>,
    vars: Vec<Declaration<'a>>,
) -> Result<Statement<'a>, Stop>
    ensures answer { Agrees statement_of (res_map (λ x. looped (named_of name.entry) (map declaration_of vars.entry.items) (turn_shape x)) (turn.parse cursor.old)) result cursor.old cursor.new }
    ensures onward { length cursor.new ≤ length cursor.old }
{
    let guard = match read_guard(cursor, alloc) {
        Ok(guard) => guard,
        Err(stop) => return Err(stop),
    };
    match cursor.expect(Kind::Do) {
        Ok(()) => {}
        Err(stop) => return Err(stop),
    }
    let assignments = match read_assignments(cursor, alloc) {
        Ok(assignments) => assignments,
        Err(stop) => return Err(stop),
    };
    match cursor.expect(Kind::Semicolon) {
        Ok(()) => Ok(Statement::Loop(Loop {
            name,
            vars,
            guard,
            assignments,
        })),
        Err(stop) => Err(stop),
    }
}

// ( declarations ) when guard do assignments ;
fn loop_over<'a>(
    cursor: &mut Cursor<'a>,
    alloc: Global,
    name: NameAt<'a>,
) -> Result<Statement<'a>, Stop>
    ensures answer { Agrees statement_of (res_map (λ x. looped (named_of name.entry) (declarations_shape x.right.left) (turn_shape x.right.right.right.right)) ((both (sign kind.Open) (both declarations (both (sign kind.Close) (both (sign kind.When) turn)))).parse cursor.old)) result cursor.old cursor.new }
    ensures onward { length cursor.new ≤ length cursor.old }
{
    match cursor.expect(Kind::Open) {
        Ok(()) => {}
        Err(stop) => return Err(stop),
    }
    let vars = match cursor.declarations(alloc) {
        Ok(vars) => vars,
        Err(stop) => return Err(stop),
    };
    match cursor.expect(Kind::Close) {
        Ok(()) => {}
        Err(stop) => return Err(stop),
    }
    match cursor.expect(Kind::When) {
        Ok(()) => turn(cursor, alloc, name, vars),
        Err(stop) => Err(stop),
    }
}

// loop name ( declarations ) when guard do assignments ;
fn read_loop<'a>(cursor: &mut Cursor<'a>, alloc: Global) -> Result<Statement<'a>, Stop>
    ensures answer { Agrees statement_of (res_map loop_shape (loop.parse cursor.old)) result cursor.old cursor.new }
    ensures onward { length cursor.new ≤ length cursor.old }
{
    match cursor.expect(Kind::Loop) {
        Ok(()) => {}
        Err(stop) => return Err(stop),
    }
    match cursor.name() {
        Ok(name) => loop_over(cursor, alloc, name),
        Err(stop) => Err(stop),
    }
}

// A statement with no more than `depth` open groups at any place.
pub(crate) fn statement<'a>(
    cursor: &mut Cursor<'a>,
    alloc: Global,
    depth: u32,
) -> Result<Statement<'a>, Stop>
    ensures answer { Agrees statement_of (res_map statement_shape ((statement depth).parse cursor.old)) result cursor.old cursor.new }
    ensures onward { length cursor.new ≤ length cursor.old }
{
    if cursor.is_at(Kind::Show) {
        return read_show(cursor, alloc, depth);
    }
    if cursor.is_at(Kind::Set) {
        return read_set(cursor, alloc, depth);
    }
    if cursor.is_at(Kind::Print) {
        return read_print(cursor);
    }
    if cursor.is_at(Kind::Solve) {
        return read_solve(cursor);
    }
    if cursor.is_at(Kind::Test) {
        return read_test(cursor, alloc);
    }
    if cursor.is_at(Kind::Equal) {
        return read_equal(cursor);
    }
    if cursor.is_at(Kind::Subset) {
        return read_subset(cursor);
    }
    if cursor.is_at(Kind::Check) {
        read_check(cursor, alloc, depth)
    } else {
        read_loop(cursor, alloc)
    }
}
