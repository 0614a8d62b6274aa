//! Substitutions worked out by hand. The conditions of a substitution are asked first.

ghost use Rattle.std.specs.Prelude.{◌≤◌, ◌<◌, ◌^◌, All, IsTrue, unsigned_abs};
ghost use Rattle.formula_core.specs.Shape.{formula_of};
ghost use Rattle.term_substitution.specs.Conditions.{IsOver, IsSubstitute, IsTermOver};

use super::*;
use formula_core::{Formula, Linear, Sort, depth, nodes};
use std::alloc::Global;
use std::test::Fail;

// Whether all the places are below the number.
fn are_below(parts: &[(u32, i128)], places: u32) -> bool
    ensures { IsTrue result → All (λ t. t.0 < places) parts.now }
{
    parts.iter().all(|part| part.0 < places)
}

// Whether all the coefficients are at most 2^88 in magnitude.
fn are_small(parts: &[(u32, i128)]) -> bool
    ensures { IsTrue result → All (λ t. unsigned_abs t.1 ≤ 2 ^ 88) parts.now }
{
    parts.iter().all(|part| part.1.unsigned_abs() <= 1 << 88)
}

// Whether the term can be put for a variable.
fn is_substitute(term: &Linear, places: u32) -> bool
    ensures { IsTrue result → IsSubstitute places term.now }
{
    are_below(term.terms(), places)
        && are_small(term.terms())
        && term.constant().unsigned_abs() <= 1 << 88
}

fn are_substitutes(terms: &[Linear], places: u32) -> bool
    ensures { IsTrue result → All (IsSubstitute places) terms.now }
{
    terms.iter().all(|term| is_substitute(term, places))
}

// Whether the atom's term is over so many variables, and inside the limits.
fn is_term_over(count: u32, atom: &Linear) -> bool
    ensures { IsTrue result → IsTermOver count atom.now }
{
    let passed = Passed::of(atom);
    are_below(atom.terms(), count) && !passed.coefficients && !passed.constant
}

// Whether the formula is over so many variables, with atoms inside the limits.
fn is_over(count: u32, formula: &Formula) -> bool
    ensures { IsTrue result → IsOver count (formula_of formula.now) }
{
    match formula {
        Formula::Le(atom) | Formula::Eq(atom) => is_term_over(count, atom),
        Formula::Not(inner) => is_over(count, inner),
        Formula::And(left, right) | Formula::Or(left, right) => is_over(count, left)
            && is_over(count, right),
        Formula::Exists(_, inner) => match count.checked_add(1) {
            Some(count) => is_over(count, inner),
            None => false,
        },
    }
}

// What is put together where the conditions hold.
fn put(
    alloc: Global,
    formula: &Formula,
    terms: &[Linear],
    places: u32,
) -> Option<Result<Formula, FormError>> {
    if terms.len() > 1 << 20 || places > 1 << 20 || !are_substitutes(terms, places) {
        return None;
    }
    if nodes(formula) > 4096 || depth(formula) > 256 || !is_over(terms.len() as u32, formula) {
        return None;
    }
    Some(subst(alloc, formula, terms, places))
}

// A coefficient at a place, and a constant.
fn one(alloc: Global, place: u32, coefficient: i128, constant: i128) -> Option<Linear>
    requires { unsigned_abs coefficient ≤ 2 ^ 88 }
{
    let mut term = Linear::new(alloc, constant);
    term.add(place, coefficient).ok()?;
    Some(term)
}

// Coefficients at the places 0 and 1, and a constant.
fn two(alloc: Global, first: i128, second: i128, constant: i128) -> Option<Linear>
    requires first { unsigned_abs first ≤ 2 ^ 88 }
    requires second { unsigned_abs second ≤ 2 ^ 88 }
{
    let mut term = Linear::new(alloc, constant);
    match term.add(0, first) {
        Ok(()) => {}
        Err(_) => return None,
    }
    term.add(1, second).ok()?;
    Some(term)
}

fn is_term(term: &Linear, parts: &[(u32, i128)], constant: i128) -> bool {
    term.terms() == parts && term.constant() == constant
}

fn is_le(answer: &Result<Formula, FormError>, parts: &[(u32, i128)], constant: i128) -> bool {
    match answer {
        Ok(Formula::Le(term)) => is_term(term, parts, constant),
        _ => false,
    }
}

fn is_error(answer: &Result<Formula, FormError>, error: FormError) -> bool {
    match answer {
        Err(found) => *found == error,
        Ok(_) => false,
    }
}

// `x <= bound` with a term of one variable put for x.
fn put_one(
    alloc: Global,
    bound: i128,
    coefficient: i128,
    constant: i128,
) -> Option<Result<Formula, FormError>>
    requires { unsigned_abs coefficient ≤ 2 ^ 88 }
{
    let atom = Formula::Le(one(alloc, 0, 1, bound)?);
    put(alloc, &atom, &[one(alloc, 0, coefficient, constant)?], 1)
}

#[test]
fn constants_are_taken_away(rt: HostRuntime) -> Result<(), Fail> {
    let result = put_one(rt.alloc(), 3, 1, 1).ok_or("no terms")?;
    assert!(rt; is_le(&result, &[(0, 1)], 2));
    Ok(())
}

#[test]
fn coefficients_come_first(rt: HostRuntime) -> Result<(), Fail> {
    let result = put_one(rt.alloc(), 3, 16777217, 1 << 80).ok_or("no terms")?;
    assert!(rt; is_error(&result, FormError::Coefficient));
    let result = put_one(rt.alloc(), 3, 16777216, 1).ok_or("no terms")?;
    assert!(rt; is_le(&result, &[(0, 16777216)], 2));
    Ok(())
}

#[test]
fn constants_at_the_limit(rt: HostRuntime) -> Result<(), Fail> {
    let result = put_one(rt.alloc(), 1 << 40, 1, -1).ok_or("no terms")?;
    assert!(rt; is_error(&result, FormError::Constant));
    let result = put_one(rt.alloc(), (1 << 40) - 1, 1, -1).ok_or("no terms")?;
    assert!(rt; is_le(&result, &[(0, 1)], 1 << 40));
    Ok(())
}

// `x + y <= 0` with x for x and y - x for y.
fn put_two(alloc: Global) -> Option<Result<Formula, FormError>> {
    let atom = Formula::Le(two(alloc, 1, 1, 0)?);
    put(
        alloc,
        &atom,
        &[one(alloc, 0, 1, 0)?, two(alloc, -1, 1, 0)?],
        2,
    )
}

#[test]
fn coefficients_cancel(rt: HostRuntime) -> Result<(), Fail> {
    let result = put_two(rt.alloc()).ok_or("no terms")?;
    assert!(rt; is_le(&result, &[(1, 1)], 0));
    Ok(())
}

// `exists z: x - z <= 0` with x + y for x.
fn put_under_exists(alloc: Global) -> Option<Result<Formula, FormError>> {
    let body = Box::new(alloc, Formula::Le(two(alloc, 1, -1, 0)?)).ok()?;
    let formula = Formula::Exists(Sort::Int, body);
    put(alloc, &formula, &[two(alloc, 1, 1, 0)?], 2)
}

#[test]
fn bound_places_move(rt: HostRuntime) -> Result<(), Fail> {
    let result = put_under_exists(rt.alloc()).ok_or("no terms")?;
    let inner = match &result {
        Ok(Formula::Exists(Sort::Int, inner)) => inner,
        _ => return Err("no formula".into()),
    };
    let is_moved = match &**inner {
        Formula::Le(term) => is_term(term, &[(0, 1), (1, 1), (2, -1)], 0),
        _ => false,
    };
    assert!(rt; is_moved);
    Ok(())
}
