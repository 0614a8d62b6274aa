//! Closures of small loops. The conditions are asked first.

ghost use Rattle.std.specs.Prelude.{◌≡◌, ◌≤◌, ◌<◌, ◌^◌, All, IsTrue, length, unsigned_abs};
ghost use Rattle.formula_core.specs.Shape.{formula_of};
ghost use Rattle.loop_closure.specs.Bodies.{body_of};
ghost use Rattle.loop_closure.specs.Closing.{IsBody};
ghost use Rattle.loop_laws.specs.Turns.{IsGuard, IsMember};
ghost use Rattle.matrix_powers.specs.Orbits.{IsShift, at_row};
ghost use Rattle.term_substitution.specs.Conditions.{IsOver, IsTermOver};

use super::*;
use formula_core::{Formula, Linear, depth, nodes};
use matrix_powers::{Matrix, Shift};
use std::alloc::Global;
use std::test::Fail;
use term_substitution::Passed;

// Whether all the places are below the number.
fn are_below(parts: &[(u32, i128)], places: u32) -> bool
    ensures { IsTrue result → All (λ t. t.0 < places) parts.now }
{
    parts.iter().all(|part| part.0 < places)
}

// Whether the atom's term is over so many variables, and inside the limits.
fn is_term_over(count: u32, atom: &Linear) -> bool
    ensures { IsTrue result → IsTermOver count atom.now }
{
    let passed = Passed::of(atom);
    are_below(atom.terms(), count) && !passed.coefficients && !passed.constant
}

// Whether the formula is over so many variables, with atoms inside the limits, and binds none.
fn is_over(count: u32, formula: &Formula) -> bool
    ensures { IsTrue result → IsOver count (formula_of formula.now) }
{
    match formula {
        Formula::Le(atom) | Formula::Eq(atom) => is_term_over(count, atom),
        Formula::Not(inner) => is_over(count, inner),
        Formula::And(left, right) | Formula::Or(left, right) => is_over(count, left)
            && is_over(count, right),
        Formula::Exists(_, _) => false,
    }
}

// Whether the formula is a comparison.
fn is_member(formula: &Formula) -> bool
    ensures { IsTrue result → IsMember (formula_of formula.now) }
{
    match formula {
        Formula::Le(_) | Formula::Eq(_) => true,
        _ => false,
    }
}

// Whether the formula is a guard.
fn is_guard(formula: &Formula) -> bool
    ensures { IsTrue result → IsGuard (formula_of formula.now) }
{
    match formula {
        Formula::Le(_) | Formula::Eq(_) => true,
        Formula::And(left, right) => is_guard(left) && is_member(right),
        _ => false,
    }
}

// Whether the entry at the row is at most 2^40 in magnitude.
fn is_small(shift: &Shift, row: u32) -> bool
    requires { row < length shift.now }
    ensures { IsTrue result → unsigned_abs (at_row shift.now row) ≤ 2 ^ 40 }
{
    shift.get(row).unsigned_abs() <= 1 << 40
}

// Whether the shift has so many entries, each of at most 2^40 in magnitude.
fn is_shift(side: u32, shift: &Shift) -> bool
    ensures { IsTrue result → IsShift side shift.now }
{
    if shift.side() != side {
        return false;
    }
    for row in 0..side {
        if !is_small(shift, row) {
            return false;
        }
    }
    true
}

// Whether the loop can be closed.
fn is_body(body: &LoopBody) -> bool
    ensures { IsTrue result → IsBody (body_of body.now) }
{
    let side = body.matrix.side();
    is_guard(&body.guard)
        && is_over(side, &body.guard)
        && is_shift(side, &body.shift)
        && nodes(&body.guard) <= 4096
        && depth(&body.guard) <= 256
}

// The loop of one variable that becomes so many times itself and a number more, while so many comparisons hold.
fn loop_of(alloc: Global, factor: &i128, more: &i128, members: u32) -> Option<LoopBody> {
    let mut matrix = Matrix::identity(alloc, 1).ok()?;
    matrix.set(0, 0, *factor);
    let mut shift = Shift::zero(alloc, 1).ok()?;
    shift.set(0, *more);
    let guard = guard_of(alloc, members)?;
    Some(LoopBody {
        matrix,
        shift,
        guard,
    })
}

// The variable is at most 10.
#[tactic(auto, unfolding(formula_core::specs::Terms::coefficient_at))]
fn at_most_ten(alloc: Global) -> Option<Formula> {
    let mut term = Linear::new(alloc, 10);
    term.add(0, 1).ok()?;
    Some(Formula::Le(term))
}

// It is, so many times and once more.
fn guard_of(alloc: Global, members: u32) -> Option<Formula> {
    let mut guard = at_most_ten(alloc)?;
    for _ in 0..members {
        let left = Box::new(alloc, guard).ok()?;
        let right = Box::new(alloc, at_most_ten(alloc)?).ok()?;
        guard = Formula::And(left, right);
    }
    Some(guard)
}

// How many nodes the closure has, without the number of turns or with it.
fn closed_nodes(alloc: Global, body: &LoopBody, counted: bool) -> Option<Result<u64, LoopError>> {
    if !is_body(body) {
        return None;
    }
    let answer = if counted {
        closure_counted(alloc, body)
    } else {
        closure(alloc, body)
    };
    match answer {
        Ok(formula) => Some(Ok(nodes(&formula))),
        Err(error) => Some(Err(error)),
    }
}

// What comes of the loop.
fn outcome(
    alloc: Global,
    factor: &i128,
    members: u32,
    counted: bool,
) -> Option<Result<u64, LoopError>> {
    let body = loop_of(alloc, factor, &1, members)?;
    closed_nodes(alloc, &body, counted)
}

// The equation y = x; that x is at most 10 after no turn, and after the last; M at least 1, y the last vector, and M = 1 or x at most 10
// after one turn and after the last but one. With the number of turns, an equation in either part.
#[test]
fn count_up_to_ten(rt: HostRuntime) {
    assert!(rt; outcome(rt.alloc(), &1, 0, false) == Some(Ok(14)));
    assert!(rt; outcome(rt.alloc(), &1, 0, true) == Some(Ok(18)));
}

// Doubling has no power that comes again, and changing the sign has the power 2. With 254 members one way down has 259 nodes, and over the
// power 2 the members stand in the closure 15 times.
#[test]
fn loops_without_closure(rt: HostRuntime) {
    assert!(rt; outcome(rt.alloc(), &2, 0, false) == Some(Err(LoopError::NoPower)));
    assert!(rt; outcome(rt.alloc(), &1, 253, false) == Some(Err(LoopError::Depth)));
    assert!(rt; outcome(rt.alloc(), &-1, 253, false) == Some(Err(LoopError::Nodes)));
}
