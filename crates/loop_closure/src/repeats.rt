//! The members of a closure where p M + i turns are made: p is the power, M of at least 1 is the variable at a place, and i a remainder.

ghost use Rattle.std.specs.Prelude.{◌≡◌, ◌≤◌, ◌<◌, ◌+◌, ◌++◌, [], ◌∷◌, IfOk, pos};
ghost use Rattle.formula_core.specs.Shape.{formula_of};
ghost use Rattle.lash_model.specs.Formulas.{And};
ghost use Rattle.loop_closure.specs.Builders.{IsBuilder, IsRepeat, body_in, joined_on, whole_of};
ghost use Rattle.loop_laws.specs.Closures.{between, early_term, gathered, guarded, late_term};

use crate::builder::{Builder, Stage};
use crate::members::{Join, pair, put};
use crate::parts::{guard, one};
use formula_core::Formula;
use lash_io::Memory;
use std::alloc::Global;

// The guard holds after p turns and the remainder.
fn guard_again(
    alloc: Global,
    builder: &Builder,
    remainder: u32,
    place: u32,
) -> Result<Formula, Memory>
    requires builder { IsBuilder builder.now }
    requires repeat { IsRepeat builder.now remainder place }
    ensures { IfOk result (λ f. formula_of f ≡ guarded (body_in builder.now) (early_term (body_in builder.now) (builder.now.orbit.power + remainder)) (place + 1)) }
{
    let turns = builder.orbit.power() + remainder;
    let places = place + 1;
    match guard(alloc, builder, Stage::Early { turns, places }) {
        Ok(formula) => Ok(formula),
        Err(error) => Err(error),
    }
}

// The guard holds after p (M - `back` + 1) turns and the remainder.
fn guard_late(
    alloc: Global,
    builder: &Builder,
    remainder: u32,
    place: u32,
    back: u32,
) -> Result<Formula, Memory>
    requires builder { IsBuilder builder.now }
    requires repeat { IsRepeat builder.now remainder place }
    requires near { back ≤ 2 }
    ensures { IfOk result (λ f. formula_of f ≡ guarded (body_in builder.now) (late_term (body_in builder.now) builder.now.orbit.power remainder place back) (place + 1)) }
{
    let stage = Stage::Late {
        remainder,
        place,
        back,
    };
    match guard(alloc, builder, stage) {
        Ok(formula) => Ok(formula),
        Err(error) => Err(error),
    }
}

// With M of 2 or more the guard holds after p turns and the remainder, and after p (M - 1) and the remainder.
fn middle(alloc: Global, builder: &Builder, remainder: u32, place: u32) -> Result<Formula, Memory>
    requires builder { IsBuilder builder.now }
    requires repeat { IsRepeat builder.now remainder place }
    ensures { IfOk result (λ f. formula_of f ≡ between (body_in builder.now) builder.now.orbit.power place remainder) }
{
    let first = match guard_again(alloc, builder, remainder, place) {
        Ok(first) => first,
        Err(error) => return Err(error),
    };
    let last = match guard_late(alloc, builder, remainder, place, 2) {
        Ok(last) => last,
        Err(error) => return Err(error),
    };
    let both = match pair(alloc, Join::Every, first, last) {
        Ok(both) => both,
        Err(error) => return Err(error),
    };
    match one(alloc, place) {
        Ok(alone) => pair(alloc, Join::Any, alone, both),
        Err(error) => Err(error),
    }
}

/// The same for each remainder of p.
pub(crate) fn put_middles(
    alloc: Global,
    builder: &Builder,
    whole: Option<Formula>,
    place: u32,
) -> Result<Option<Formula>, Memory>
    requires builder { IsBuilder builder.now }
    requires repeat { IsRepeat builder.now 0 place }
    ensures { IfOk result (λ w. whole_of w ≡ joined_on And (whole_of whole) (gathered (λ j. between (body_in builder.now) builder.now.orbit.power place j ∷ []) builder.now.orbit.power)) }
{
    let mut members = whole;
    for remainder in 0..builder.orbit.power() {
        let formula = match middle(alloc, builder, remainder, place) {
            Ok(formula) => formula,
            Err(error) => return Err(error),
        };
        members = match put(alloc, Join::Every, members, formula) {
            Ok(more) => more,
            Err(error) => return Err(error),
        };
    }
    Ok(members)
}

// The guard holds after p turns and the remainder, and after p M and the remainder.
fn put_ends(
    alloc: Global,
    builder: &Builder,
    whole: Option<Formula>,
    remainder: u32,
    place: u32,
) -> Result<Option<Formula>, Memory>
    requires builder { IsBuilder builder.now }
    requires repeat { IsRepeat builder.now remainder place }
    ensures { IfOk result (λ w. whole_of w ≡ joined_on And (whole_of whole) (guarded (body_in builder.now) (early_term (body_in builder.now) (builder.now.orbit.power + remainder)) (place + 1) ∷ guarded (body_in builder.now) (late_term (body_in builder.now) builder.now.orbit.power remainder place 1) (place + 1) ∷ [])) }
{
    let first = match guard_again(alloc, builder, remainder, place) {
        Ok(first) => first,
        Err(error) => return Err(error),
    };
    let members = match put(alloc, Join::Every, whole, first) {
        Ok(members) => members,
        Err(error) => return Err(error),
    };
    let last = match guard_late(alloc, builder, remainder, place, 1) {
        Ok(last) => last,
        Err(error) => return Err(error),
    };
    match put(alloc, Join::Every, members, last) {
        Ok(more) => Ok(more),
        Err(error) => Err(error),
    }
}

/// The same for each remainder below the count.
pub(crate) fn put_lasts(
    alloc: Global,
    builder: &Builder,
    whole: Option<Formula>,
    count: u32,
    place: u32,
) -> Result<Option<Formula>, Memory>
    requires builder { IsBuilder builder.now }
    requires repeat { IsRepeat builder.now count place }
    ensures { IfOk result (λ w. whole_of w ≡ joined_on And (whole_of whole) (gathered (λ j. guarded (body_in builder.now) (early_term (body_in builder.now) (builder.now.orbit.power + j)) (place + 1) ∷ guarded (body_in builder.now) (late_term (body_in builder.now) builder.now.orbit.power j place 1) (place + 1) ∷ []) count)) }
{
    let mut members = whole;
    for remainder in 0..count {
        members = match put_ends(alloc, builder, members, remainder, place) {
            Ok(more) => more,
            Err(error) => return Err(error),
        };
    }
    Ok(members)
}
