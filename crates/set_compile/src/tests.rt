//! Compiled formulas, with their canonical tables.

ghost use Rattle.std.specs.Prelude.{◌≡◌, ◌+◌, ◌<◌, ◌≤◌, ◌^◌, ℕ, [], ◌∷◌, pos, unsigned_abs, IfOk};
ghost use Rattle.formula_core.specs.Shape.{formula_of};
ghost use Rattle.set_compile.specs.Conditions.{IsTermOver, IsOver};

use super::*;
use crate::atoms::append;
use breakpoint_build::{RealError, project_real};
use digit_codes::Base;
use formula_core::{Formula, Linear, Sort, fits_letters};
use lash_io::Memory;
use packed_cells::Packed;
use std::alloc::Global;
use std::process::Abort;
use std::test::Fail;
use step_tables::Table;
use weak_min::{Canon, canonical};

/// The inequation that a coefficient times the variable at place 0 is at most a constant.
fn at_most(alloc: Global, coefficient: &i128, constant: &i128) -> Result<Formula, Memory>
    requires some { coefficient.now ≡ pos 0 → ⊥ }
    requires small { unsigned_abs coefficient.now ≤ 2 ^ 24 }
    requires low { unsigned_abs constant.now ≤ 2 ^ 40 }
    ensures over { IfOk result (λ f. (m : ℕ) → 0 < m → IsOver m (formula_of f)) }
{
    match term(alloc, 0, coefficient, constant) {
        Ok(term) => Ok(Formula::Le(term)),
        Err(Memory) => Err(Memory),
    }
}

/// The same of the variable at place 1.
fn next_at_most(alloc: Global, coefficient: &i128, constant: &i128) -> Result<Formula, Memory>
    requires some { coefficient.now ≡ pos 0 → ⊥ }
    requires small { unsigned_abs coefficient.now ≤ 2 ^ 24 }
    requires low { unsigned_abs constant.now ≤ 2 ^ 40 }
    ensures over { IfOk result (λ f. (m : ℕ) → 1 < m → IsOver m (formula_of f)) }
{
    match term(alloc, 1, coefficient, constant) {
        Ok(term) => Ok(Formula::Le(term)),
        Err(Memory) => Err(Memory),
    }
}

/// The equation that a coefficient times the variable at place 0 is a constant.
fn equal(alloc: Global, coefficient: &i128, constant: &i128) -> Result<Formula, Memory>
    requires some { coefficient.now ≡ pos 0 → ⊥ }
    requires small { unsigned_abs coefficient.now ≤ 2 ^ 24 }
    requires low { unsigned_abs constant.now ≤ 2 ^ 40 }
    ensures over { IfOk result (λ f. (m : ℕ) → 0 < m → IsOver m (formula_of f)) }
{
    match term(alloc, 0, coefficient, constant) {
        Ok(term) => Ok(Formula::Eq(term)),
        Err(Memory) => Err(Memory),
    }
}

/// The equation that the coefficients times the variables at place 0 and at a higher one are a constant together.
fn sum_equal(
    alloc: Global,
    first: &i128,
    place: u32,
    second: &i128,
    constant: &i128,
) -> Result<Formula, Memory>
    requires first { first.now ≡ pos 0 → ⊥ }
    requires second { second.now ≡ pos 0 → ⊥ }
    requires higher { 0 < place }
    requires small { unsigned_abs first.now + unsigned_abs second.now ≤ 2 ^ 24 }
    requires low { unsigned_abs constant.now ≤ 2 ^ 40 }
    ensures over { IfOk result (λ f. (m : ℕ) → place < m → IsOver m (formula_of f)) }
{
    let mut term = match term(alloc, 0, first, constant) {
        Ok(term) => term,
        Err(Memory) => return Err(Memory),
    };
    match append(&mut term, place, second) {
        Ok(()) => Ok(Formula::Eq(term)),
        Err(Memory) => Err(Memory),
    }
}

/// A coefficient times the variable at a place.
fn term(alloc: Global, place: u32, coefficient: &i128, constant: &i128) -> Result<Linear, Memory>
    requires some { coefficient.now ≡ pos 0 → ⊥ }
    requires small { unsigned_abs coefficient.now ≤ 2 ^ 24 }
    requires low { unsigned_abs constant.now ≤ 2 ^ 40 }
    ensures is { IfOk result (λ a. a ≡ record { terms = (place, coefficient.now) ∷ []; constant = constant.now }) }
    ensures over { IfOk result (λ a. (m : ℕ) → place < m → IsTermOver m a) }
{
    let mut term = Linear::new(alloc, *constant);
    match append(&mut term, place, coefficient) {
        Ok(()) => Ok(term),
        Err(Memory) => Err(Memory),
    }
}

fn not(alloc: Global, inner: Formula) -> Result<Formula, Memory>
    ensures over { IfOk result (λ f. (m : ℕ) → IsOver m (formula_of inner) → IsOver m (formula_of f)) }
{
    match Box::new(alloc, inner) {
        Ok(inner) => Ok(Formula::Not(inner)),
        Err(_) => Err(Memory),
    }
}

fn and(alloc: Global, left: Formula, right: Formula) -> Result<Formula, Memory>
    ensures over { IfOk result (λ f. (m : ℕ) → IsOver m (formula_of left) → IsOver m (formula_of right) → IsOver m (formula_of f)) }
{
    let first = match Box::new(alloc, left) {
        Ok(first) => first,
        Err(_) => return Err(Memory),
    };
    match Box::new(alloc, right) {
        Ok(second) => Ok(Formula::And(first, second)),
        Err(_) => Err(Memory),
    }
}

fn or(alloc: Global, left: Formula, right: Formula) -> Result<Formula, Memory>
    ensures over { IfOk result (λ f. (m : ℕ) → IsOver m (formula_of left) → IsOver m (formula_of right) → IsOver m (formula_of f)) }
{
    let first = match Box::new(alloc, left) {
        Ok(first) => first,
        Err(_) => return Err(Memory),
    };
    match Box::new(alloc, right) {
        Ok(second) => Ok(Formula::Or(first, second)),
        Err(_) => Err(Memory),
    }
}

/// For some value of a sort, at the next place.
fn exists(alloc: Global, sort: Sort, body: Formula) -> Result<Formula, Memory>
    ensures over { IfOk result (λ f. (m : ℕ) → IsOver (m + 1) (formula_of body) → IsOver m (formula_of f)) }
{
    match Box::new(alloc, body) {
        Ok(body) => Ok(Formula::Exists(sort, body)),
        Err(_) => Err(Memory),
    }
}

/// Over no variables, in base 2.
fn over_none(
    rt: &impl Abort,
    alloc: Global,
    formula: &Formula,
    limit: u64,
) -> Result<Canon, CompileError>
    requires over { IsOver 0 (formula_of formula.now) }
    requires limit { limit ≤ 16777216 }
{
    let two = match Base::new(2) {
        Some(two) => two,
        None => return Err(CompileError::Memory),
    };
    assert!(rt; fits_letters(two, formula, 0));
    compile(alloc, two, &[], formula, limit)
}

/// Over one integer, in base 2.
fn over_one(
    rt: &impl Abort,
    alloc: Global,
    formula: &Formula,
    limit: u64,
) -> Result<Canon, CompileError>
    requires over { IsOver 1 (formula_of formula.now) }
    requires limit { limit ≤ 16777216 }
{
    let two = match Base::new(2) {
        Some(two) => two,
        None => return Err(CompileError::Memory),
    };
    assert!(rt; fits_letters(two, formula, 1));
    compile(alloc, two, &[Sort::Int], formula, limit)
}

/// Over two integers, in base 2.
fn over_two(
    rt: &impl Abort,
    alloc: Global,
    formula: &Formula,
    limit: u64,
) -> Result<Canon, CompileError>
    requires over { IsOver 2 (formula_of formula.now) }
    requires limit { limit ≤ 16777216 }
{
    let two = match Base::new(2) {
        Some(two) => two,
        None => return Err(CompileError::Memory),
    };
    assert!(rt; fits_letters(two, formula, 2));
    compile(alloc, two, &[Sort::Int, Sort::Int], formula, limit)
}

/// Over one real, in base 2.
fn over_real(
    rt: &impl Abort,
    alloc: Global,
    formula: &Formula,
    limit: u64,
) -> Result<Canon, CompileError>
    requires over { IsOver 1 (formula_of formula.now) }
    requires limit { limit ≤ 16777216 }
{
    let two = match Base::new(2) {
        Some(two) => two,
        None => return Err(CompileError::Memory),
    };
    assert!(rt; fits_letters(two, formula, 1));
    compile(alloc, two, &[Sort::Real], formula, limit)
}

/// Over two reals, in base 2.
fn over_reals(
    rt: &impl Abort,
    alloc: Global,
    formula: &Formula,
    limit: u64,
) -> Result<Canon, CompileError>
    requires over { IsOver 2 (formula_of formula.now) }
    requires limit { limit ≤ 16777216 }
{
    let two = match Base::new(2) {
        Some(two) => two,
        None => return Err(CompileError::Memory),
    };
    assert!(rt; fits_letters(two, formula, 2));
    compile(alloc, two, &[Sort::Real, Sort::Real], formula, limit)
}

/// Over an integer and a real, in base 2.
fn over_both(
    rt: &impl Abort,
    alloc: Global,
    formula: &Formula,
    limit: u64,
) -> Result<Canon, CompileError>
    requires over { IsOver 2 (formula_of formula.now) }
    requires limit { limit ≤ 16777216 }
{
    let two = match Base::new(2) {
        Some(two) => two,
        None => return Err(CompileError::Memory),
    };
    assert!(rt; fits_letters(two, formula, 2));
    compile(alloc, two, &[Sort::Int, Sort::Real], formula, limit)
}

fn is_heavy(rt: &impl Abort, made: Result<Canon, CompileError>) {
    match made {
        Ok(_) => assert!(rt; false, "the limit is passed"),
        Err(CompileError::Heavy) => {}
        Err(_) => assert!(rt; false, "the limit is the cause"),
    }
}

fn outs_are(rt: &impl Abort, table: &Table<Packed>, outs: &[u32]) {
    assert!(rt; table.ints() as usize == outs.len());
    for state in 0..table.ints() {
        assert_eq!(rt; table.out(state), outs[state as usize]);
    }
}

fn row_is(rt: &impl Abort, table: &Table<Packed>, state: u32, row: &[u32]) {
    assert!(rt; state < table.ints() && table.letters() as usize == row.len());
    for letter in 0..table.letters() {
        assert_eq!(rt; table.int_step(state, letter), row[letter as usize]);
    }
}

fn roots_are(rt: &impl Abort, table: &Table<Packed>, roots: &[u32]) {
    assert!(rt; table.tracks() <= 2 && 2usize.pow(table.tracks()) == roots.len());
    for sign in 0..2u32.pow(table.tracks()) {
        assert_eq!(rt; table.root(sign), roots[sign as usize]);
    }
}

/// The outputs of a table with fraction states, and the colours of these.
fn parts_are(rt: &impl Abort, table: &Table<Packed>, outs: &[u32], colours: &[bool]) {
    outs_are(rt, table, outs);
    assert!(rt; table.fracs() as usize == colours.len());
    for state in 0..table.fracs() {
        assert_eq!(rt; table.colour(state), colours[state as usize]);
    }
}

fn fraction_row_is(rt: &impl Abort, table: &Table<Packed>, state: u32, row: &[u32]) {
    assert!(rt; state < table.fracs() && table.letters() as usize == row.len());
    for letter in 0..table.letters() {
        assert_eq!(rt; table.frac_step(state, letter), row[letter as usize]);
    }
}

// The atom alone has 15 cells.
#[test]
fn an_atom(rt: HostRuntime) -> Result<(), Fail> {
    let formula = at_most(rt.alloc(), &1, &3)?;
    let made = over_one(&rt, rt.alloc(), &formula, 15)?;
    roots_are(&rt, made.table(), &[0, 1]);
    outs_are(&rt, made.table(), &[1, 1, 1, 1, 0]);
    row_is(&rt, made.table(), 0, &[0, 2]);
    row_is(&rt, made.table(), 3, &[4, 4]);
    is_heavy(&rt, over_one(&rt, rt.alloc(), &formula, 14));
    Ok(())
}

// The atoms have 15 and 6 cells, their pairs 25.
#[test]
fn a_conjunction(rt: HostRuntime) -> Result<(), Fail> {
    let low = at_most(rt.alloc(), &1, &3)?;
    let high = at_most(rt.alloc(), &-1, &0)?;
    let formula = and(rt.alloc(), low, high)?;
    let made = over_one(&rt, rt.alloc(), &formula, 25)?;
    roots_are(&rt, made.table(), &[0, 1]);
    outs_are(&rt, made.table(), &[1, 0, 1, 1]);
    row_is(&rt, made.table(), 0, &[0, 2]);
    row_is(&rt, made.table(), 2, &[3, 3]);
    row_is(&rt, made.table(), 3, &[1, 1]);
    is_heavy(&rt, over_one(&rt, rt.alloc(), &formula, 24));
    Ok(())
}

// The pairs of what is above 3 and what is at least 0.
#[test]
fn a_disjunction(rt: HostRuntime) -> Result<(), Fail> {
    let low = at_most(rt.alloc(), &1, &3)?;
    let above = not(rt.alloc(), low)?;
    let high = at_most(rt.alloc(), &-1, &0)?;
    let formula = or(rt.alloc(), above, high)?;
    let made = over_one(&rt, rt.alloc(), &formula, 25)?;
    roots_are(&rt, made.table(), &[0, 1]);
    outs_are(&rt, made.table(), &[1, 0]);
    row_is(&rt, made.table(), 0, &[0, 0]);
    row_is(&rt, made.table(), 1, &[1, 1]);
    Ok(())
}

// The second variable is not used: the pairs with the table of all vectors have 35 cells.
#[test]
fn an_unused_variable(rt: HostRuntime) -> Result<(), Fail> {
    let formula = at_most(rt.alloc(), &1, &3)?;
    let made = over_two(&rt, rt.alloc(), &formula, 35)?;
    roots_are(&rt, made.table(), &[0, 0, 1, 1]);
    outs_are(&rt, made.table(), &[1, 1, 1, 1, 0]);
    row_is(&rt, made.table(), 0, &[0, 0, 2, 2]);
    is_heavy(&rt, over_two(&rt, rt.alloc(), &formula, 34));
    Ok(())
}

// 2x = 6 has 27 cells.
#[test]
fn an_equation(rt: HostRuntime) -> Result<(), Fail> {
    let formula = equal(rt.alloc(), &2, &6)?;
    let made = over_one(&rt, rt.alloc(), &formula, 27)?;
    roots_are(&rt, made.table(), &[0, 1]);
    outs_are(&rt, made.table(), &[0, 0, 0, 1]);
    row_is(&rt, made.table(), 0, &[0, 2]);
    row_is(&rt, made.table(), 2, &[1, 3]);
    row_is(&rt, made.table(), 3, &[1, 1]);
    is_heavy(&rt, over_one(&rt, rt.alloc(), &formula, 26));
    Ok(())
}

// The atoms have 30 and 18 cells, their pairs 154, and the subsets 28: x is at least 2.
#[test]
fn a_bound_variable(rt: HostRuntime) -> Result<(), Fail> {
    let formula = fourfold_is_high(rt.alloc())?;
    let made = over_one(&rt, rt.alloc(), &formula, 154)?;
    roots_are(&rt, made.table(), &[0, 1]);
    outs_are(&rt, made.table(), &[0, 0, 0, 1]);
    row_is(&rt, made.table(), 0, &[0, 2]);
    row_is(&rt, made.table(), 1, &[1, 1]);
    row_is(&rt, made.table(), 2, &[3, 3]);
    row_is(&rt, made.table(), 3, &[3, 3]);
    is_heavy(&rt, over_one(&rt, rt.alloc(), &formula, 153));
    Ok(())
}

/// For some y, y = 4x and y is at least 8.
fn fourfold_is_high(alloc: Global) -> Result<Formula, Memory>
    ensures over { IfOk result (λ f. IsOver 1 (formula_of f)) }
{
    let fourfold = match sum_equal(alloc, &-4, 1, &1, &0) {
        Ok(fourfold) => fourfold,
        Err(Memory) => return Err(Memory),
    };
    let high = match next_at_most(alloc, &-1, &-8) {
        Ok(high) => high,
        Err(Memory) => return Err(Memory),
    };
    match and(alloc, fourfold, high) {
        Ok(body) => exists(alloc, Sort::Int, body),
        Err(Memory) => Err(Memory),
    }
}

// The atoms have 30 and 40 cells, their pairs 77, and the subsets, which are the largest step, 84.
#[test]
fn heavy_subsets(rt: HostRuntime) -> Result<(), Fail> {
    let formula = one_of_two(rt.alloc())?;
    let made = over_one(&rt, rt.alloc(), &formula, 84)?;
    roots_are(&rt, made.table(), &[0, 1]);
    outs_are(&rt, made.table(), &[1, 1, 0, 1, 0, 1, 0]);
    row_is(&rt, made.table(), 2, &[3, 4]);
    row_is(&rt, made.table(), 5, &[3, 4]);
    row_is(&rt, made.table(), 6, &[0, 2]);
    is_heavy(&rt, over_one(&rt, rt.alloc(), &formula, 83));
    Ok(())
}

/// For some y, x = 4y or 4x + 3y = -1.
fn one_of_two(alloc: Global) -> Result<Formula, Memory>
    ensures over { IfOk result (λ f. IsOver 1 (formula_of f)) }
{
    let fourth = match sum_equal(alloc, &-1, 1, &4, &0) {
        Ok(fourth) => fourth,
        Err(Memory) => return Err(Memory),
    };
    let other = match sum_equal(alloc, &4, 1, &3, &-1) {
        Ok(other) => other,
        Err(Memory) => return Err(Memory),
    };
    match or(alloc, fourth, other) {
        Ok(body) => exists(alloc, Sort::Int, body),
        Err(Memory) => Err(Memory),
    }
}

// The bound variable is not used, and costs no step.
#[test]
fn an_unused_bound_variable(rt: HostRuntime) -> Result<(), Fail> {
    let formula = low_for_some(rt.alloc())?;
    let made = over_one(&rt, rt.alloc(), &formula, 15)?;
    roots_are(&rt, made.table(), &[0, 1]);
    outs_are(&rt, made.table(), &[1, 1, 1, 1, 0]);
    is_heavy(&rt, over_one(&rt, rt.alloc(), &formula, 14));
    Ok(())
}

/// For some y, x is at most 3.
fn low_for_some(alloc: Global) -> Result<Formula, Memory>
    ensures over { IfOk result (λ f. IsOver 1 (formula_of f)) }
{
    match at_most(alloc, &1, &3) {
        Ok(low) => exists(alloc, Sort::Int, low),
        Err(Memory) => Err(Memory),
    }
}

// z stands at place 2, and on the second track. The atom has 25 cells and the subsets 15.
#[test]
fn bound_variables_in_one_another(rt: HostRuntime) -> Result<(), Fail> {
    let formula = threefold(rt.alloc())?;
    let made = over_one(&rt, rt.alloc(), &formula, 25)?;
    roots_are(&rt, made.table(), &[0, 1]);
    outs_are(&rt, made.table(), &[1, 0, 0]);
    row_is(&rt, made.table(), 0, &[0, 2]);
    is_heavy(&rt, over_one(&rt, rt.alloc(), &formula, 24));
    Ok(())
}

/// For some y, for some z, x = 3z.
fn threefold(alloc: Global) -> Result<Formula, Memory>
    ensures over { IfOk result (λ f. IsOver 1 (formula_of f)) }
{
    let body = match sum_equal(alloc, &1, 2, &-3, &0) {
        Ok(body) => body,
        Err(Memory) => return Err(Memory),
    };
    match exists(alloc, Sort::Int, body) {
        Ok(inner) => exists(alloc, Sort::Int, inner),
        Err(Memory) => Err(Memory),
    }
}

// The atom has 18 cells and the subsets 8.
#[test]
fn a_true_sentence(rt: HostRuntime) -> Result<(), Fail> {
    let formula = some_is_high(rt.alloc())?;
    let made = over_none(&rt, rt.alloc(), &formula, 18)?;
    roots_are(&rt, made.table(), &[0]);
    outs_are(&rt, made.table(), &[1]);
    row_is(&rt, made.table(), 0, &[0]);
    is_heavy(&rt, over_none(&rt, rt.alloc(), &formula, 17));
    Ok(())
}

/// Some y is at least 8.
fn some_is_high(alloc: Global) -> Result<Formula, Memory>
    ensures over { IfOk result (λ f. IsOver 0 (formula_of f)) }
{
    match at_most(alloc, &-1, &-8) {
        Ok(high) => exists(alloc, Sort::Int, high),
        Err(Memory) => Err(Memory),
    }
}

#[test]
fn a_false_sentence(rt: HostRuntime) -> Result<(), Fail> {
    let formula = five_thirds(rt.alloc())?;
    let made = over_none(&rt, rt.alloc(), &formula, 27)?;
    roots_are(&rt, made.table(), &[0]);
    outs_are(&rt, made.table(), &[0]);
    Ok(())
}

/// For some y, 3y = 5.
fn five_thirds(alloc: Global) -> Result<Formula, Memory>
    ensures over { IfOk result (λ f. IsOver 0 (formula_of f)) }
{
    match equal(alloc, &3, &5) {
        Ok(body) => exists(alloc, Sort::Int, body),
        Err(Memory) => Err(Memory),
    }
}

// Over the reals the same atom has 27 cells.
#[test]
fn a_real_atom(rt: HostRuntime) -> Result<(), Fail> {
    let formula = at_most(rt.alloc(), &1, &3)?;
    let made = over_real(&rt, rt.alloc(), &formula, 27)?;
    roots_are(&rt, made.table(), &[0, 1]);
    parts_are(&rt, made.table(), &[0, 0, 0, 0, 1, 2], &[true, true, false]);
    row_is(&rt, made.table(), 2, &[3, 4]);
    fraction_row_is(&rt, made.table(), 1, &[1, 2]);
    is_heavy(&rt, over_real(&rt, rt.alloc(), &formula, 26));
    Ok(())
}

// Its complement costs no cells.
#[test]
fn a_real_negation(rt: HostRuntime) -> Result<(), Fail> {
    let low = at_most(rt.alloc(), &1, &3)?;
    let formula = not(rt.alloc(), low)?;
    let made = over_real(&rt, rt.alloc(), &formula, 27)?;
    parts_are(
        &rt,
        made.table(),
        &[0, 0, 0, 0, 1, 2],
        &[false, false, true],
    );
    fraction_row_is(&rt, made.table(), 1, &[1, 2]);
    Ok(())
}

// x is 1 or 0. The atoms have 21 cells each, and their pairs 50.
#[test]
fn a_real_disjunction(rt: HostRuntime) -> Result<(), Fail> {
    let one = equal(rt.alloc(), &1, &1)?;
    let zero = equal(rt.alloc(), &1, &0)?;
    let formula = or(rt.alloc(), one, zero)?;
    let made = over_real(&rt, rt.alloc(), &formula, 50)?;
    roots_are(&rt, made.table(), &[0, 1]);
    parts_are(&rt, made.table(), &[0, 1, 2, 3], &[true, true, true, false]);
    fraction_row_is(&rt, made.table(), 0, &[2, 1]);
    is_heavy(&rt, over_real(&rt, rt.alloc(), &formula, 49));
    Ok(())
}

// The double of the real is the integer: the atom has 55 cells, the whole numbers 15, and their pairs 147.
#[test]
fn a_half_of_an_integer(rt: HostRuntime) -> Result<(), Fail> {
    let formula = sum_equal(rt.alloc(), &-1, 1, &2, &0)?;
    let made = over_both(&rt, rt.alloc(), &formula, 147)?;
    roots_are(&rt, made.table(), &[0, 1, 2, 3]);
    row_is(&rt, made.table(), 3, &[1, 0, 4, 3]);
    parts_are(
        &rt,
        made.table(),
        &[0, 1, 2, 3, 4],
        &[true, true, true, true, false, true, true],
    );
    fraction_row_is(&rt, made.table(), 0, &[5, 4, 6, 2]);
    is_heavy(&rt, over_both(&rt, rt.alloc(), &formula, 146));
    Ok(())
}

// The integer is not used: the largest step is the pairs with the whole numbers on its track, which have 105 cells.
#[test]
fn an_unused_integer(rt: HostRuntime) -> Result<(), Fail> {
    let formula = next_at_most(rt.alloc(), &1, &0)?;
    let made = over_both(&rt, rt.alloc(), &formula, 105)?;
    roots_are(&rt, made.table(), &[0, 1, 0, 1]);
    parts_are(
        &rt,
        made.table(),
        &[0, 1, 2],
        &[true, true, false, true, true, true, true],
    );
    fraction_row_is(&rt, made.table(), 1, &[5, 5, 6, 6]);
    is_heavy(&rt, over_both(&rt, rt.alloc(), &formula, 104));
    Ok(())
}

// A real that is some integer. The atom has 45 cells, the whole numbers 15, their pairs 140, and the breakpoint states 34.
#[test]
fn an_integer_bound_among_reals(rt: HostRuntime) -> Result<(), Fail> {
    let formula = some_integer(rt.alloc())?;
    let made = over_real(&rt, rt.alloc(), &formula, 140)?;
    roots_are(&rt, made.table(), &[0, 0]);
    parts_are(&rt, made.table(), &[0], &[true, true, true, false]);
    fraction_row_is(&rt, made.table(), 0, &[1, 2]);
    fraction_row_is(&rt, made.table(), 1, &[1, 3]);
    fraction_row_is(&rt, made.table(), 2, &[3, 2]);
    is_heavy(&rt, over_real(&rt, rt.alloc(), &formula, 139));
    Ok(())
}

/// For some integer n, x = n.
fn some_integer(alloc: Global) -> Result<Formula, Memory>
    ensures over { IfOk result (λ f. IsOver 1 (formula_of f)) }
{
    match sum_equal(alloc, &1, 1, &-1, &0) {
        Ok(body) => exists(alloc, Sort::Int, body),
        Err(Memory) => Err(Memory),
    }
}

// An integer with a half that is at least 0, so the declared variables are integers and the bound one is real. The atoms have 55 and 18
// cells, their pairs 210, and the breakpoint states 68.
#[test]
fn a_real_bound_beside_an_integer(rt: HostRuntime) -> Result<(), Fail> {
    let formula = some_half(rt.alloc())?;
    let made = over_one(&rt, rt.alloc(), &formula, 210)?;
    roots_are(&rt, made.table(), &[0, 1]);
    outs_are(&rt, made.table(), &[1, 0]);
    row_is(&rt, made.table(), 0, &[0, 0]);
    row_is(&rt, made.table(), 1, &[1, 1]);
    assert!(&rt; made.table().fracs() == 0);
    is_heavy(&rt, over_one(&rt, rt.alloc(), &formula, 209));
    Ok(())
}

/// For some real y, 2y = x and y is at least 0.
fn some_half(alloc: Global) -> Result<Formula, Memory>
    ensures over { IfOk result (λ f. IsOver 1 (formula_of f)) }
{
    let half = match sum_equal(alloc, &-1, 1, &2, &0) {
        Ok(half) => half,
        Err(Memory) => return Err(Memory),
    };
    let high = match next_at_most(alloc, &-1, &0) {
        Ok(high) => high,
        Err(Memory) => return Err(Memory),
    };
    match and(alloc, half, high) {
        Ok(body) => exists(alloc, Sort::Real, body),
        Err(Memory) => Err(Memory),
    }
}

// The table of 2y = x over two reals forgets the track of y. What is left accepts all lassos, with one state in each part.
#[test]
fn a_forgotten_track(rt: HostRuntime) -> Result<(), Fail> {
    let formula = sum_equal(rt.alloc(), &-1, 1, &2, &0)?;
    let made = over_reals(&rt, rt.alloc(), &formula, 4194304)?;
    let all = without_second(rt.alloc(), &made, 4194304)?;
    roots_are(&rt, all.table(), &[0, 0]);
    row_is(&rt, all.table(), 0, &[0, 0]);
    parts_are(&rt, all.table(), &[0], &[true]);
    fraction_row_is(&rt, all.table(), 0, &[0, 0]);
    match without_second(rt.alloc(), &made, 1) {
        Err(RealError::Heavy) => Ok(()),
        _ => Err(Fail::new("the limit is passed")),
    }
}

/// The canonical table of a table with fraction states that forgets its second track; out of memory for another table.
fn without_second(alloc: Global, made: &Canon, limit: u64) -> Result<Canon, RealError>
    requires limit { limit ≤ 16777216 }
{
    let table = made.table();
    if table.fracs() == 0 || table.tracks() < 2 {
        return Err(RealError::Memory);
    }
    let forgotten = project_real(alloc, table, 1, limit)?;
    match canonical(alloc, &forgotten) {
        Ok(all) => Ok(all),
        Err(Memory) => Err(RealError::Memory),
    }
}
