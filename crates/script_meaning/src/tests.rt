//! Names, limits and core formulas of scripts. The expected answers are those of the reference implementation, and the formulas are
//! worked out by hand.

ghost use Rattle.std.specs.Prelude.{◌≡◌, ◌≤◌, ◌<◌, ◌^◌, All, IfOk, IsTrue, length, map, min, unsigned_abs};
ghost use Rattle.formula_core.specs.Counts.{count_limit};
ghost use Rattle.formula_core.specs.Shape.{formula_of};
ghost use Rattle.script_meaning.specs.Limits.{parts_of, size_of};
ghost use Rattle.script_syntax.specs.Trees.{term_of, tree_of};
ghost use Rattle.term_substitution.specs.Conditions.{IsOver, IsTermOver};

use super::*;
use crate::counts::nodes;
use digit_codes::Base;
use formula_core::{Formula, Linear, Sort, Vars};
use lash_io::Memory;
use script_names::{Defs, FaultAt, Name, NameFault};
use script_syntax::{Cursor, Term, Tree};
use script_tokens::{Placed, tokens};
use std::alloc::Global;
use std::test::Fail;
use term_substitution::Passed;

// How many parts terms have, or more.
fn parts(terms: &[Term<'_>]) -> u64
    ensures { min (parts_of (map term_of terms.now)) count_limit ≤ result }
{
    match terms {
        [] => 0,
        [term] => term.parts.len() as u64,
        _ => u64::MAX,
    }
}

// How many parts of terms and declared variables a tree has, or more.
fn size(tree: &Tree<'_>) -> u64
    ensures { min (size_of (tree_of tree.now)) count_limit ≤ result }
{
    match tree {
        Tree::Truth(_) => 0,
        Tree::Call(_, terms) => parts(terms),
        Tree::Compare(left, _, right) => {
            (left.parts.len() as u64).saturating_add(right.parts.len() as u64)
        }
        Tree::Not(inner) => size(inner),
        Tree::And(left, right)
        | Tree::Or(left, right)
        | Tree::Implies(left, right)
        | Tree::Equivalent(left, right) => size(left).saturating_add(size(right)),
        Tree::Quantified(_, declarations, inner) => {
            (declarations.len() as u64).saturating_add(size(inner))
        }
    }
}

fn read<'a>(alloc: Global, tokens: &'a [Placed<'a>]) -> Option<Tree<'a>> {
    let mut cursor = Cursor::new(tokens);
    match cursor.formula(alloc, 256) {
        Ok(tree) => Some(tree),
        Err(_) => None,
    }
}

// What a formula over no variables, of at most 100 parts, is resolved to in base 2; its first byte is byte 6 of the script.
fn resolved_with(alloc: Global, defs: &Defs, text: &[u8]) -> Option<Result<Resolved, Refusal>> {
    let placed = tokens(alloc, text, 6).ok()?;
    let tree = read(alloc, &placed)?;
    let base = Base::new(2)?;
    if size(&tree) > 100 {
        return None;
    }
    Some(resolve(alloc, base, defs, false, &[], &tree))
}

// The same where no sets are kept.
fn resolved(alloc: Global, text: &[u8]) -> Option<Result<Resolved, Refusal>> {
    let defs = Defs::new(alloc);
    resolved_with(alloc, &defs, text)
}

fn is_within(alloc: Global, text: &[u8]) -> bool {
    matches!(resolved(alloc, text), Some(Ok(_)))
}

fn is_limit(found: &Option<Result<Resolved, Refusal>>, which: Which) -> bool {
    match found {
        Some(Err(Refusal::Limit(limit))) => *limit == which,
        _ => false,
    }
}

fn passes(alloc: Global, text: &[u8], which: Which) -> bool {
    is_limit(&resolved(alloc, text), which)
}

fn is_faulty(alloc: Global, text: &[u8], fault: NameFault, place: u64) -> bool {
    match resolved(alloc, text) {
        Some(Err(Refusal::Fault(found))) => found == FaultAt { fault, place },
        _ => false,
    }
}

#[test]
fn names_come_before_limits(rt: HostRuntime) -> Result<(), Fail> {
    let alloc = rt.alloc();
    assert!(rt; is_faulty(alloc, b"y <= 18446744073709551617", NameFault::Unknown, 6));
    assert!(rt;
        is_faulty(
            alloc,
            b"exists x int: exists y int: x = z",
            NameFault::Unknown,
            38
        )
    );
    assert!(rt;
        is_faulty(
            alloc,
            b"(exists x int: x = 1) and x = 1",
            NameFault::Unknown,
            32
        )
    );
    assert!(rt; is_faulty(alloc, b"set1(3)", NameFault::Unknown, 6));
    Ok(())
}

// A literal of 2^64 and one more; a constant of 2^40 and one more.
#[test]
fn great_numbers(rt: HostRuntime) -> Result<(), Fail> {
    let alloc = rt.alloc();
    assert!(rt; passes(alloc, b"0 <= 18446744073709551616", Which::Constant));
    assert!(rt; passes(alloc, b"0 <= 18446744073709551617", Which::Literal));
    assert!(rt; is_within(alloc, b"0 <= 1099511627776"));
    assert!(rt; passes(alloc, b"0 <= 1099511627777", Which::Constant));
    Ok(())
}

// Sums of coefficients of 2^24 and one more.
#[test]
fn great_coefficients(rt: HostRuntime) -> Result<(), Fail> {
    let alloc = rt.alloc();
    assert!(rt; is_within(alloc, b"exists x int: 16777216*x = 0"));
    assert!(rt; passes(alloc, b"exists x int: 16777217*x = 0", Which::Coefficient));
    assert!(rt; is_within(alloc, b"exists x int, y int: 16777215*x - y <= 0"));
    assert!(rt;
        passes(
            alloc,
            b"exists x int, y int: 16777215*x - 2*y <= 0",
            Which::Coefficient
        )
    );
    Ok(())
}

#[test]
fn coefficients_come_before_constants(rt: HostRuntime) -> Result<(), Fail> {
    let alloc = rt.alloc();
    assert!(rt;
        passes(
            alloc,
            b"exists x int: 16777216*x = 1099511627777",
            Which::Constant
        )
    );
    assert!(rt;
        passes(
            alloc,
            b"exists x int: 16777217*x = 1099511627777",
            Which::Coefficient
        )
    );
    assert!(rt;
        passes(
            alloc,
            b"exists x int: 0 = 1099511627777 and 16777217*x = 0",
            Which::Coefficient
        )
    );
    Ok(())
}

// Over 12 places in base 2 there are 4,096 letters, over 13 there are 8,192.
#[test]
fn letters_of_bound_variables(rt: HostRuntime) -> Result<(), Fail> {
    let alloc = rt.alloc();
    assert!(rt;
        is_within(
            alloc,
            b"exists a int, b int, c int, d int, e int, f int, g int, h int, i int, j int, k int, l int: a + b + c + d + e + f + g + h + i + j + k + l <= 0"
        )
    );
    assert!(rt;
        passes(
            alloc,
            b"exists a int, b int, c int, d int, e int, f int, g int, h int, i int, j int, k int, l int, m int: a + b + c + d + e + f + g + h + i + j + k + l + m <= 0",
            Which::Letters
        )
    );
    Ok(())
}

fn nodes_of_text(alloc: Global, text: &[u8]) -> Option<u64> {
    let placed = tokens(alloc, text, 0).ok()?;
    let tree = read(alloc, &placed)?;
    let defs = Defs::new(alloc);
    Some(nodes(&defs, &tree))
}

// From n nodes `<-> true` makes 2n + 7: 1, 9, 25, and so on up to 4,089 and 8,185.
#[test]
fn equivalences_count_their_parts_twice(rt: HostRuntime) -> Result<(), Fail> {
    let alloc = rt.alloc();
    assert!(rt; nodes_of_text(alloc, b"(true <-> true) <-> true") == Some(25));
    assert!(rt;
        is_within(
            alloc,
            b"(((((((((true) <-> true) <-> true) <-> true) <-> true) <-> true) <-> true) <-> true) <-> true) <-> true"
        )
    );
    assert!(rt;
        passes(
            alloc,
            b"((((((((((true) <-> true) <-> true) <-> true) <-> true) <-> true) <-> true) <-> true) <-> true) <-> true) <-> true",
            Which::Nodes
        )
    );
    Ok(())
}

// `not` so many times, then `true`.
fn negations(alloc: Global, count: usize) -> Option<Vec<u8>> {
    let mut text = Vec::new(alloc);
    for _ in 0..count {
        text.extend_from_slice(b"not ").ok()?;
    }
    text.extend_from_slice(b"true").ok()?;
    Some(text)
}

#[test]
fn depth_of_negations(rt: HostRuntime) -> Result<(), Fail> {
    let alloc = rt.alloc();
    let within = negations(alloc, 255).ok_or("no memory")?;
    assert!(rt; is_within(alloc, within.as_slice()));
    let deeper = negations(alloc, 256).ok_or("no memory")?;
    assert!(rt; passes(alloc, deeper.as_slice(), Which::Depth));
    Ok(())
}

fn is_atom(formula: &Formula, terms: &[(u32, i128)], constant: i128) -> bool {
    match formula {
        Formula::Le(atom) => atom.terms() == terms && atom.constant() == constant,
        _ => false,
    }
}

fn is_negated_atom(formula: &Formula, terms: &[(u32, i128)], constant: i128) -> bool {
    match formula {
        Formula::Not(inner) => is_atom(inner, terms, constant),
        _ => false,
    }
}

// What two integers are bound around.
fn is_bound_twice(formula: &Formula, negated: bool, terms: &[(u32, i128)], constant: i128) -> bool {
    match formula {
        Formula::Exists(Sort::Int, inner) => match inner.as_ref() {
            Formula::Exists(Sort::Int, body) => if negated {
                is_negated_atom(body, terms, constant)
            } else {
                is_atom(body, terms, constant)
            },
            _ => false,
        },
        _ => false,
    }
}

fn has_body(
    alloc: Global,
    text: &[u8],
    negated: bool,
    terms: &[(u32, i128)],
    constant: i128,
) -> bool {
    match resolved(alloc, text) {
        Some(Ok(found)) => is_bound_twice(&found.formula, negated, terms, constant),
        _ => false,
    }
}

// x < y is the negation of y - x <= 0, and 2*x + 3 - x <= 7 is x <= 4.
#[test]
fn comparisons_become_atoms(rt: HostRuntime) -> Result<(), Fail> {
    let alloc = rt.alloc();
    assert!(rt;
        has_body(
            alloc,
            b"exists x int, y int: x < y",
            true,
            &[(0, -1), (1, 1)],
            0
        )
    );
    assert!(rt;
        has_body(
            alloc,
            b"exists x int, y int: 2*x + 3 - x <= 7",
            false,
            &[(0, 1)],
            4
        )
    );
    assert!(rt;
        has_body(
            alloc,
            b"exists x int, y int: x >= 2*y - 5",
            false,
            &[(0, -1), (1, 2)],
            5
        )
    );
    assert!(rt; has_body(alloc, b"exists x int, y int: x + y > x", true, &[(1, 1)], 0));
    Ok(())
}

// One integer x.
fn one_variable(alloc: Global) -> Result<Vars, Memory>
    ensures { IfOk result (λ vars. length vars ≡ 1) }
{
    let mut vars = Vars::new(alloc);
    match vars.add(b"x", Sort::Int) {
        Ok(()) => Ok(vars),
        Err(error) => Err(error),
    }
}

// Keeps the set of the integers x of which the formula holds.
fn keep(alloc: Global, defs: &mut Defs, name: &[u8], formula: Formula) -> Option<()>
    requires { IsOver 1 (formula_of formula) }
{
    if formula_core::nodes(&formula) > 4096 || formula_core::depth(&formula) > 256 {
        return None;
    }
    if defs.len() >= 1024 || defs.place(name).is_some() {
        return None;
    }
    let name = Name::new(alloc, name).ok()?;
    let vars = one_variable(alloc).ok()?;
    defs.keep(name, vars, formula).ok()
}

// 2*x <= 5.
fn small_atom(alloc: Global) -> Result<Linear, Memory> {
    let mut atom = Linear::new(alloc, 5);
    match atom.add(0, 2) {
        Ok(()) => Ok(atom),
        Err(error) => Err(error),
    }
}

// Whether all the places are below the number.
fn are_below(parts: &[(u32, i128)], places: u32) -> bool
    ensures { IsTrue result → All (λ t. t.0 < places) parts.now }
{
    parts.iter().all(|part| part.0 < places)
}

// Whether an atom is one of x, inside the limits.
fn is_small(atom: &Linear) -> bool
    ensures { IsTrue result → IsTermOver 1 atom.now }
{
    let passed = Passed::of(atom);
    are_below(atom.terms(), 1) && !passed.coefficients && !passed.constant
}

// F of `2*x <= 5`.
fn kept_atom(alloc: Global) -> Option<Defs> {
    let mut defs = Defs::new(alloc);
    let atom = small_atom(alloc).ok()?;
    if !is_small(&atom) {
        return None;
    }
    keep(alloc, &mut defs, b"F", Formula::Le(atom))?;
    Some(defs)
}

// F(3*y - z + 1) is 6*y - 2*z <= 3.
#[test]
fn calls_are_replaced(rt: HostRuntime) -> Result<(), Fail> {
    let alloc = rt.alloc();
    let defs = kept_atom(alloc).ok_or("no memory")?;
    let found = resolved_with(alloc, &defs, b"exists y int, z int: F(3*y - z + 1)");
    match found {
        Some(Ok(set)) => {
            assert!(rt; is_bound_twice(&set.formula, false, &[(0, 6), (1, -2)], 3));
        }
        _ => return Err("it is refused".into()),
    }
    Ok(())
}

// The limits are those of 2*(8388608*y) <= 5, and so on.
#[test]
fn calls_are_replaced_before_limits(rt: HostRuntime) -> Result<(), Fail> {
    let alloc = rt.alloc();
    let defs = kept_atom(alloc).ok_or("no memory")?;
    let found = resolved_with(alloc, &defs, b"exists y int: F(8388608*y)");
    assert!(rt; matches!(found, Some(Ok(_))));
    let found = resolved_with(alloc, &defs, b"exists y int: F(8388609*y)");
    assert!(rt; is_limit(&found, Which::Coefficient));
    let found = resolved_with(alloc, &defs, b"F(549755813890)");
    assert!(rt; matches!(found, Some(Ok(_))));
    let found = resolved_with(alloc, &defs, b"F(549755813891)");
    assert!(rt; is_limit(&found, Which::Constant));
    let found = resolved_with(alloc, &defs, b"F(18446744073709551617)");
    assert!(rt; is_limit(&found, Which::Literal));
    Ok(())
}
