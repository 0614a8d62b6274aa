//! A closure from its members: i turns for each i below the power p, and p M + i turns with an M of at least 1.

ghost use Rattle.std.specs.Prelude.{◌≡◌, ◌≤◌, ◌<◌, ◌+◌, ◌++◌, [], ◌∷◌, IfOk, None, pos};
ghost use Rattle.formula_core.specs.Shape.{formula_of};
ghost use Rattle.formula_core.specs.Terms.{added};
ghost use Rattle.lash_model.specs.Formulas.{And, Exists, Int, Or};
ghost use Rattle.loop_closure.specs.Builders.{IsBuilder, IsRepeat, body_in, joined_on, whole_of};
ghost use Rattle.loop_laws.specs.Closures.{closure_of, equations, gathered, is_some, joined, late_term, long, long_count, places_of, short, short_count};

use crate::builder::{Builder, Stage};
use crate::members::{Join, put, settle};
use crate::parts::{equal, put_equations, put_first_guards, some};
use crate::repeats::{put_lasts, put_middles};
use formula_core::{Formula, Linear, Sort};
use lash_io::Memory;
use std::alloc::Global;

// Over how many variables the closure is.
fn all_places(builder: &Builder) -> u32
    requires { IsBuilder builder.now }
    ensures places { result ≡ places_of builder.now.counted (body_in builder.now) }
    ensures enough { builder.now.orbit.matrix.side + builder.now.orbit.matrix.side ≤ result }
    ensures few { result ≤ 9 }
{
    let side = builder.orbit.side();
    if builder.counted {
        side + side + 1
    } else {
        side + side
    }
}

// The number of turns is the one at hand, where it is a variable.
fn put_short_count(
    alloc: Global,
    builder: &Builder,
    whole: Option<Formula>,
    turns: u32,
) -> Result<Option<Formula>, Memory>
    requires builder { IsBuilder builder.now }
    ensures { IfOk result (λ w. whole_of w ≡ joined_on And (whole_of whole) (short_count builder.now.counted (body_in builder.now) turns)) }
{
    if !builder.counted {
        return Ok(whole);
    }
    let place = builder.orbit.side() + builder.orbit.side();
    let term = Linear::new(alloc, turns as i128);
    let formula = match equal(alloc, builder, place, term, place + 1) {
        Ok(formula) => formula,
        Err(error) => return Err(error),
    };
    match put(alloc, Join::Every, whole, formula) {
        Ok(more) => Ok(more),
        Err(error) => Err(error),
    }
}

// The power times the variable at the place, and the remainder.
#[tactic(auto, unfolding(formula_core::specs::Terms::coefficient_at))]
fn multiple(alloc: Global, power: u32, place: u32, remainder: u32) -> Result<Linear, Memory>
    ensures { IfOk result (λ t. t ≡ record { terms = added [] place (pos power); constant = pos remainder }) }
{
    let mut term = Linear::new(alloc, remainder as i128);
    match term.add(place, power as i128) {
        Ok(()) => Ok(term),
        Err(error) => Err(error),
    }
}

// The number of turns is p M and the remainder, where it is a variable.
fn put_long_count(
    alloc: Global,
    builder: &Builder,
    whole: Option<Formula>,
    remainder: u32,
) -> Result<Option<Formula>, Memory>
    requires builder { IsBuilder builder.now }
    ensures { IfOk result (λ w. whole_of w ≡ joined_on And (whole_of whole) (long_count builder.now.counted (body_in builder.now) builder.now.orbit.power remainder)) }
{
    if !builder.counted {
        return Ok(whole);
    }
    let place = builder.orbit.side() + builder.orbit.side();
    let term = match multiple(alloc, builder.orbit.power(), place + 1, remainder) {
        Ok(term) => term,
        Err(error) => return Err(error),
    };
    let formula = match equal(alloc, builder, place, term, place + 2) {
        Ok(formula) => formula,
        Err(error) => return Err(error),
    };
    match put(alloc, Join::Every, whole, formula) {
        Ok(more) => Ok(more),
        Err(error) => Err(error),
    }
}

// So many turns, fewer than the power, lead from x to y.
fn short(alloc: Global, builder: &Builder, turns: u32) -> Result<Formula, Memory>
    requires builder { IsBuilder builder.now }
    requires turns { turns < builder.now.orbit.power }
    ensures { IfOk result (λ f. formula_of f ≡ joined And (short builder.now.counted (body_in builder.now) turns)) }
{
    let places = all_places(builder);
    let members = match put_equations(alloc, builder, None, Stage::Early { turns, places }) {
        Ok(members) => members,
        Err(error) => return Err(error),
    };
    let members = match put_first_guards(alloc, builder, members, turns, places) {
        Ok(members) => members,
        Err(error) => return Err(error),
    };
    match put_short_count(alloc, builder, members, turns) {
        Ok(members) => Ok(settle(alloc, members)),
        Err(error) => Err(error),
    }
}

// M is at least 1, and y is the vector after p M turns and the remainder.
fn long_start(
    alloc: Global,
    builder: &Builder,
    remainder: u32,
    place: u32,
) -> Result<Option<Formula>, Memory>
    requires builder { IsBuilder builder.now }
    requires repeat { IsRepeat builder.now remainder place }
    ensures { IfOk result (λ w. whole_of w ≡ joined_on And None (is_some place ∷ equations (body_in builder.now) (late_term (body_in builder.now) builder.now.orbit.power remainder place 1) (place + 1))) }
{
    let stage = Stage::Late {
        remainder,
        place,
        back: 1,
    };
    let formula = match some(alloc, place) {
        Ok(formula) => formula,
        Err(error) => return Err(error),
    };
    match put_equations(alloc, builder, Some(formula), stage) {
        Ok(members) => Ok(members),
        Err(error) => Err(error),
    }
}

// All members for p M turns and the remainder.
fn long_members(alloc: Global, builder: &Builder, remainder: u32) -> Result<Option<Formula>, Memory>
    requires builder { IsBuilder builder.now }
    requires remainder { remainder < builder.now.orbit.power }
    ensures { IfOk result (λ w. whole_of w ≡ joined_on And None (long builder.now.counted (body_in builder.now) builder.now.orbit.power remainder)) }
{
    let place = all_places(builder);
    let members = match long_start(alloc, builder, remainder, place) {
        Ok(members) => members,
        Err(error) => return Err(error),
    };
    let power = builder.orbit.power();
    let members = match put_first_guards(alloc, builder, members, power, place + 1) {
        Ok(members) => members,
        Err(error) => return Err(error),
    };
    let members = match put_middles(alloc, builder, members, place) {
        Ok(members) => members,
        Err(error) => return Err(error),
    };
    let members = match put_lasts(alloc, builder, members, remainder, place) {
        Ok(members) => members,
        Err(error) => return Err(error),
    };
    match put_long_count(alloc, builder, members, remainder) {
        Ok(members) => Ok(members),
        Err(error) => Err(error),
    }
}

// With some M, p M turns and the remainder lead from x to y.
fn long(alloc: Global, builder: &Builder, remainder: u32) -> Result<Formula, Memory>
    requires builder { IsBuilder builder.now }
    requires remainder { remainder < builder.now.orbit.power }
    ensures { IfOk result (λ f. formula_of f ≡ Exists Int (joined And (long builder.now.counted (body_in builder.now) builder.now.orbit.power remainder))) }
{
    let members = match long_members(alloc, builder, remainder) {
        Ok(members) => members,
        Err(error) => return Err(error),
    };
    match Box::new(alloc, settle(alloc, members)) {
        Ok(body) => Ok(Formula::Exists(Sort::Int, body)),
        Err(_) => Err(Memory),
    }
}

// Some number of turns below the power leads from x to y.
fn put_shorts(alloc: Global, builder: &Builder) -> Result<Option<Formula>, Memory>
    requires builder { IsBuilder builder.now }
    ensures { IfOk result (λ w. whole_of w ≡ joined_on Or None (gathered (λ i. joined And (short builder.now.counted (body_in builder.now) i) ∷ []) builder.now.orbit.power)) }
{
    let mut members = None;
    for turns in 0..builder.orbit.power() {
        let formula = match short(alloc, builder, turns) {
            Ok(formula) => formula,
            Err(error) => return Err(error),
        };
        members = match put(alloc, Join::Any, members, formula) {
            Ok(more) => more,
            Err(error) => return Err(error),
        };
    }
    Ok(members)
}

// Or some number of turns from the power on.
fn put_longs(
    alloc: Global,
    builder: &Builder,
    whole: Option<Formula>,
) -> Result<Option<Formula>, Memory>
    requires builder { IsBuilder builder.now }
    ensures { IfOk result (λ w. whole_of w ≡ joined_on Or (whole_of whole) (gathered (λ i. Exists Int (joined And (long builder.now.counted (body_in builder.now) builder.now.orbit.power i)) ∷ []) builder.now.orbit.power)) }
{
    let mut members = whole;
    for remainder in 0..builder.orbit.power() {
        let formula = match long(alloc, builder, remainder) {
            Ok(formula) => formula,
            Err(error) => return Err(error),
        };
        members = match put(alloc, Join::Any, members, formula) {
            Ok(more) => more,
            Err(error) => return Err(error),
        };
    }
    Ok(members)
}

/// The closure, whatever limits it passes.
pub(crate) fn all_branches(alloc: Global, builder: &Builder) -> Result<Formula, Memory>
    requires builder { IsBuilder builder.now }
    ensures { IfOk result (λ f. formula_of f ≡ closure_of builder.now.counted (body_in builder.now) builder.now.orbit.power) }
{
    let members = match put_shorts(alloc, builder) {
        Ok(members) => members,
        Err(error) => return Err(error),
    };
    match put_longs(alloc, builder, members) {
        Ok(members) => Ok(settle(alloc, members)),
        Err(error) => Err(error),
    }
}
