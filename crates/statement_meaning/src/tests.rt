//! Statements judged against kept sets. The expected answers are those of the reference implementation.

ghost use Rattle.std.specs.Prelude.{◌≤◌, ◌<◌, All, IfOk, IsTrue, length, map, min};
ghost use Rattle.formula_core.specs.Counts.{count_limit};
ghost use Rattle.script_meaning.specs.Limits.{parts_of, size_of};
ghost use Rattle.script_statements.specs.Statements.{comprehension_of, statement_of};
ghost use Rattle.script_statements.specs.Values.{rational_of};
ghost use Rattle.script_syntax.specs.Trees.{term_of, tree_of};
ghost use Rattle.statement_meaning.specs.Judging.{IsReadable, IsStatementReadable};
ghost use Rattle.statement_meaning.specs.Values.{IsQuotient};

use super::*;
use digit_codes::Base;
use formula_core::{Formula, Linear, Sort, Vars};
use lash_io::Memory;
use script_meaning::{Refusal, Which};
use script_names::{Defs, FaultAt, Name, NameFault};
use script_statements::{Comprehension, Rational, Statement as Tree, read_statement};
use script_syntax::{Term, Tree as FormulaTree};
use script_tokens::tokens;
use std::alloc::Global;
use std::test::Fail;

// How many parts terms have, or more.
fn parts(terms: &[Term<'_>]) -> u64
    ensures { min (parts_of (map term_of terms.now)) count_limit ≤ result }
{
    match terms {
        [] => 0,
        [term] => term.parts.len() as u64,
        _ => u64::MAX,
    }
}

// How many parts of terms and declared variables a formula has, or more.
fn size(tree: &FormulaTree<'_>) -> u64
    ensures { min (size_of (tree_of tree.now)) count_limit ≤ result }
{
    match tree {
        FormulaTree::Truth(_) => 0,
        FormulaTree::Call(_, terms) => parts(terms),
        FormulaTree::Compare(left, _, right) => {
            (left.parts.len() as u64).saturating_add(right.parts.len() as u64)
        }
        FormulaTree::Not(inner) => size(inner),
        FormulaTree::And(left, right)
        | FormulaTree::Or(left, right)
        | FormulaTree::Implies(left, right)
        | FormulaTree::Equivalent(left, right) => size(left).saturating_add(size(right)),
        FormulaTree::Quantified(_, declarations, inner) => {
            (declarations.len() as u64).saturating_add(size(inner))
        }
    }
}

// Whether a set has no variables and is small.
fn is_small(set: &Comprehension<'_>) -> bool
    ensures { IsTrue result → IsReadable (comprehension_of set.now) }
{
    set.vars.is_empty() && size(&set.formula) <= 100
}

fn are_positive(values: &[Rational]) -> bool
    ensures { IsTrue result → All (λ v. 0 < v.denominator) values.now }
{
    values.iter().all(|value| value.denominator > 0)
}

fn are_quotients(values: &[Rational]) -> bool
    ensures { IsTrue result → All IsQuotient (map rational_of values.now) }
{
    are_positive(values)
}

// Whether the statement can be judged here.
fn is_readable(statement: &Tree<'_>) -> bool
    ensures { IsTrue result → IsStatementReadable (statement_of statement.now) }
{
    match statement {
        Tree::Show(set) | Tree::Set(_, set) => is_small(set),
        Tree::Test(_, values) => are_quotients(values),
        Tree::Check(formula) => size(formula) <= 100,
        Tree::Loop(_) => false,
        _ => true,
    }
}

// What a statement is judged to be, whose first byte is byte 0 of the script.
fn judged(alloc: Global, defs: &Defs, text: &[u8]) -> Option<Result<Statement, Refusal>> {
    let placed = tokens(alloc, text, 0).ok()?;
    let statement = read_statement(alloc, &placed).ok()?;
    let base = Base::new(2)?;
    if is_readable(&statement) {
        Some(judge(alloc, base, defs, &statement))
    } else {
        None
    }
}

// No variables, or x of the sort.
fn vars_of(alloc: Global, sort: Option<Sort>) -> Result<Vars, Memory>
    ensures { IfOk result (λ vars. length vars ≤ 1) }
{
    let mut vars = Vars::new(alloc);
    match sort {
        Some(sort) => match vars.add(b"x", sort) {
            Ok(()) => Ok(vars),
            Err(error) => Err(error),
        },
        None => Ok(vars),
    }
}

// Keeps the set of all values of its variable.
fn keep_all(alloc: Global, defs: &mut Defs, name: &[u8], sort: Option<Sort>) -> Option<()> {
    if defs.len() >= 1024 || defs.place(name).is_some() {
        return None;
    }
    let name = Name::new(alloc, name).ok()?;
    let zero = Linear::new(alloc, 0);
    match vars_of(alloc, sort) {
        Ok(vars) => defs.keep(name, vars, Formula::Le(zero)).ok(),
        Err(_) => None,
    }
}

// X over an integer, R over a real, and N over nothing.
fn three_sets(alloc: Global) -> Option<Defs> {
    let mut defs = Defs::new(alloc);
    keep_all(alloc, &mut defs, b"X", Some(Sort::Int))?;
    keep_all(alloc, &mut defs, b"R", Some(Sort::Real))?;
    keep_all(alloc, &mut defs, b"N", None)?;
    Some(defs)
}

// A digit of a number below 10,000, by its weight.
fn digit(number: u32, weight: u32) -> u8 {
    match weight {
        0 => b'0',
        _ => b'0' + (number / weight % 10) as u8,
    }
}

// So many sets over nothing, whose names are A and four digits.
fn many_sets(alloc: Global, count: u32) -> Option<Defs> {
    let mut defs = Defs::new(alloc);
    for at in 0..count {
        let name = [
            b'A',
            digit(at, 1000),
            digit(at, 100),
            digit(at, 10),
            digit(at, 1),
        ];
        keep_all(alloc, &mut defs, &name, None)?;
    }
    Some(defs)
}

fn is_fault_of(alloc: Global, defs: &Defs, text: &[u8], fault: NameFault, place: u64) -> bool {
    match judged(alloc, defs, text) {
        Some(Err(Refusal::Fault(found))) => found == FaultAt { fault, place },
        _ => false,
    }
}

fn passes_of(alloc: Global, defs: &Defs, text: &[u8], which: Which) -> bool {
    match judged(alloc, defs, text) {
        Some(Err(Refusal::Limit(found))) => found == which,
        _ => false,
    }
}

// The same of the three sets.
fn is_fault(alloc: Global, text: &[u8], fault: NameFault, place: u64) -> bool {
    match three_sets(alloc) {
        Some(defs) => is_fault_of(alloc, &defs, text, fault, place),
        None => false,
    }
}

fn passes(alloc: Global, text: &[u8], which: Which) -> bool {
    match three_sets(alloc) {
        Some(defs) => passes_of(alloc, &defs, text, which),
        None => false,
    }
}

// The kind of what is asked, and the places of the sets.
fn seen(statement: &Statement) -> (u8, u32, u32) {
    match statement {
        Statement::Show { .. } => (0, 0, 0),
        Statement::Set { .. } => (1, 0, 0),
        Statement::Print { at } => (2, *at, 0),
        Statement::Solve { at } => (3, *at, 0),
        Statement::Test { at, .. } => (4, *at, 0),
        Statement::Equal { left, right } => (5, *left, *right),
        Statement::Subset { left, right } => (6, *left, *right),
        Statement::Check { .. } => (7, 0, 0),
        Statement::Loop { .. } => (8, 0, 0),
    }
}

fn asks(alloc: Global, text: &[u8]) -> Option<(u8, u32, u32)> {
    let defs = three_sets(alloc)?;
    match judged(alloc, &defs, text) {
        Some(Ok(statement)) => Some(seen(&statement)),
        _ => None,
    }
}

#[test]
fn statements_ask(rt: HostRuntime) -> Result<(), Fail> {
    let alloc = rt.alloc();
    assert!(rt; asks(alloc, b"show (): X(1) and N();") == Some((0, 0, 0)));
    assert!(rt; asks(alloc, b"set B () = true;") == Some((1, 0, 0)));
    assert!(rt; asks(alloc, b"print R;") == Some((2, 1, 0)));
    assert!(rt; asks(alloc, b"solve N;") == Some((3, 2, 0)));
    assert!(rt; asks(alloc, b"test R (-1/2);") == Some((4, 1, 0)));
    assert!(rt; asks(alloc, b"equal X X;") == Some((5, 0, 0)));
    assert!(rt; asks(alloc, b"subset R R;") == Some((6, 1, 1)));
    assert!(rt; asks(alloc, b"check R(1);") == Some((7, 0, 0)));
    Ok(())
}

#[test]
fn unknown_names(rt: HostRuntime) -> Result<(), Fail> {
    let alloc = rt.alloc();
    assert!(rt; is_fault(alloc, b"print A;", NameFault::Unknown, 6));
    assert!(rt; is_fault(alloc, b"solve A;", NameFault::Unknown, 6));
    assert!(rt; is_fault(alloc, b"test A (1);", NameFault::Unknown, 5));
    assert!(rt; is_fault(alloc, b"equal A B;", NameFault::Unknown, 6));
    assert!(rt; is_fault(alloc, b"equal X B;", NameFault::Unknown, 8));
    assert!(rt; is_fault(alloc, b"equal A X;", NameFault::Unknown, 6));
    assert!(rt; is_fault(alloc, b"check x = 1;", NameFault::Unknown, 6));
    assert!(rt; is_fault(alloc, b"set B () = y = 1;", NameFault::Unknown, 11));
    Ok(())
}

#[test]
fn repeated_and_misused_names(rt: HostRuntime) -> Result<(), Fail> {
    let alloc = rt.alloc();
    assert!(rt; is_fault(alloc, b"set X () = true;", NameFault::Repeated, 4));
    assert!(rt; is_fault(alloc, b"set X () = y = 1;", NameFault::Repeated, 4));
    assert!(rt; is_fault(alloc, b"test X ();", NameFault::Misused, 5));
    assert!(rt; is_fault(alloc, b"test X (1, 2);", NameFault::Misused, 5));
    assert!(rt;
        is_fault(
            alloc,
            b"test N (18446744073709551617);",
            NameFault::Misused,
            5
        )
    );
    assert!(rt; is_fault(alloc, b"equal X R;", NameFault::Misused, 8));
    assert!(rt; is_fault(alloc, b"equal X N;", NameFault::Misused, 8));
    assert!(rt; is_fault(alloc, b"subset N X;", NameFault::Misused, 9));
    assert!(rt; is_fault(alloc, b"check X();", NameFault::Misused, 6));
    Ok(())
}

#[test]
fn limits_of_values(rt: HostRuntime) -> Result<(), Fail> {
    let alloc = rt.alloc();
    assert!(rt; passes(alloc, b"test X (1/65537);", Which::Denominator));
    assert!(rt; asks(alloc, b"test X (1/65536);") == Some((4, 0, 0)));
    assert!(rt; asks(alloc, b"test X (65537/65537);") == Some((4, 0, 0)));
    assert!(rt; asks(alloc, b"test X (-18446744073709551616);") == Some((4, 0, 0)));
    assert!(rt; passes(alloc, b"test X (18446744073709551617);", Which::Literal));
    assert!(rt; passes(alloc, b"test X (1/18446744073709551617);", Which::Literal));
    assert!(rt; passes(alloc, b"show (): 0 = 1099511627777;", Which::Constant));
    Ok(())
}

#[test]
fn limit_of_sets(rt: HostRuntime) -> Result<(), Fail> {
    let alloc = rt.alloc();
    let full = many_sets(alloc, 1024).ok_or("no memory")?;
    assert!(rt; passes_of(alloc, &full, b"set B () = true;", Which::Sets));
    assert!(rt;
        passes_of(
            alloc,
            &full,
            b"set B () = 0 <= 18446744073709551617;",
            Which::Literal
        )
    );
    assert!(rt; is_fault_of(alloc, &full, b"set B () = y = 1;", NameFault::Unknown, 11));
    assert!(rt;
        is_fault_of(
            alloc,
            &full,
            b"set A0000 () = true;",
            NameFault::Repeated,
            4
        )
    );
    assert!(rt; matches!(judged(alloc, &full, b"show (): true;"), Some(Ok(_))));
    let room = many_sets(alloc, 1023).ok_or("no memory")?;
    assert!(rt; matches!(judged(alloc, &room, b"set B () = true;"), Some(Ok(_))));
    Ok(())
}
