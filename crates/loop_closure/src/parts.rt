//! The members of a closure: equations, guards and counts, each joined to those before it.

ghost use Rattle.std.specs.Prelude.{◌≡◌, ◌≤◌, ◌<◌, ◌+◌, ◌++◌, [], ◌∷◌, IfOk, pos};
ghost use Rattle.formula_core.specs.Shape.{formula_of};
ghost use Rattle.formula_core.specs.Terms.{added};
ghost use Rattle.lash_model.specs.Formulas.{And};
ghost use Rattle.loop_closure.specs.Builders.{IsBuilder, IsStage, IsEarly, IsLate, body_in, joined_on, stage_places, stage_term, whole_of};
ghost use Rattle.loop_laws.specs.Closures.{between, early_term, equation, equations, gathered, guarded, is_one, is_some, late_term};
ghost use Rattle.term_substitution.specs.Conditions.{IsSubstitute, variables_limit};

use crate::builder::{Builder, Stage, places};
use crate::members::{Join, pair, put};
use crate::terms::{term, terms};
use formula_core::{Formula, Linear};
use lash_io::Memory;
use std::alloc::Global;
use term_substitution::replace;

// The variable at the place and the term.
#[tactic(auto, unfolding(formula_core::specs::Terms::coefficient_at, formula_core::specs::Terms::added))]
fn two_terms(alloc: Global, place: u32, term: Linear) -> Result<Vec<Linear>, Memory>
    ensures { IfOk result (λ v. v.items ≡ record { terms = (place, pos 1) ∷ []; constant = pos 0 } ∷ term ∷ []) }
{
    let mut variable = Linear::new(alloc, 0);
    match variable.add(place, 1) {
        Ok(()) => {}
        Err(error) => return Err(error),
    }
    let mut terms = Vec::new(alloc);
    match terms.push(variable) {
        Ok(()) => {}
        Err(_) => return Err(Memory),
    }
    match terms.push(term) {
        Ok(()) => Ok(terms),
        Err(_) => Err(Memory),
    }
}

/// The variable at the place is the term.
pub(crate) fn equal(
    alloc: Global,
    builder: &Builder,
    place: u32,
    term: Linear,
    places: u32,
) -> Result<Formula, Memory>
    requires builder { IsBuilder builder.now }
    requires place { place < places }
    requires term { IsSubstitute places term }
    requires places { places ≤ variables_limit }
    ensures { IfOk result (λ f. formula_of f ≡ equation place term places) }
{
    let terms = match two_terms(alloc, place, term) {
        Ok(terms) => terms,
        Err(error) => return Err(error),
    };
    match replace(alloc, &builder.same, &terms, places) {
        Ok(formula) => Ok(formula),
        Err(error) => Err(error),
    }
}

// The variable of y at the row is the row at the stage.
fn row_equation(alloc: Global, builder: &Builder, stage: Stage, row: u32) -> Result<Formula, Memory>
    requires builder { IsBuilder builder.now }
    requires stage { IsStage builder.now stage }
    requires row { row < builder.now.orbit.matrix.side }
    ensures { IfOk result (λ f. formula_of f ≡ equation (builder.now.orbit.matrix.side + row) (stage_term builder.now stage row) (stage_places stage)) }
{
    let term = match term(alloc, builder, stage, row) {
        Ok(term) => term,
        Err(error) => return Err(error),
    };
    let place = builder.orbit.side() + row;
    match equal(alloc, builder, place, term, places(stage)) {
        Ok(formula) => Ok(formula),
        Err(error) => Err(error),
    }
}

/// y is the vector at the stage.
pub(crate) fn put_equations(
    alloc: Global,
    builder: &Builder,
    whole: Option<Formula>,
    stage: Stage,
) -> Result<Option<Formula>, Memory>
    requires builder { IsBuilder builder.now }
    requires stage { IsStage builder.now stage }
    ensures { IfOk result (λ w. whole_of w ≡ joined_on And (whole_of whole) (equations (body_in builder.now) (stage_term builder.now stage) (stage_places stage))) }
{
    let mut members = whole;
    for row in 0..builder.orbit.side() {
        let formula = match row_equation(alloc, builder, stage, row) {
            Ok(formula) => formula,
            Err(error) => return Err(error),
        };
        members = match put(alloc, Join::Every, members, formula) {
            Ok(more) => more,
            Err(error) => return Err(error),
        };
    }
    Ok(members)
}

/// The guard holds at the stage.
pub(crate) fn guard(alloc: Global, builder: &Builder, stage: Stage) -> Result<Formula, Memory>
    requires builder { IsBuilder builder.now }
    requires stage { IsStage builder.now stage }
    ensures { IfOk result (λ f. formula_of f ≡ guarded (body_in builder.now) (stage_term builder.now stage) (stage_places stage)) }
{
    let terms = match terms(alloc, builder, stage) {
        Ok(terms) => terms,
        Err(error) => return Err(error),
    };
    match replace(alloc, &builder.guard, &terms, places(stage)) {
        Ok(formula) => Ok(formula),
        Err(error) => Err(error),
    }
}

// The guard at the stage, joined to the members so far.
fn put_guard(
    alloc: Global,
    builder: &Builder,
    whole: Option<Formula>,
    stage: Stage,
) -> Result<Option<Formula>, Memory>
    requires builder { IsBuilder builder.now }
    requires stage { IsStage builder.now stage }
    ensures { IfOk result (λ w. whole_of w ≡ joined_on And (whole_of whole) (guarded (body_in builder.now) (stage_term builder.now stage) (stage_places stage) ∷ [])) }
{
    let formula = match guard(alloc, builder, stage) {
        Ok(formula) => formula,
        Err(error) => return Err(error),
    };
    match put(alloc, Join::Every, whole, formula) {
        Ok(more) => Ok(more),
        Err(error) => Err(error),
    }
}

/// The guard holds after each number of turns below the count.
pub(crate) fn put_first_guards(
    alloc: Global,
    builder: &Builder,
    whole: Option<Formula>,
    count: u32,
    places: u32,
) -> Result<Option<Formula>, Memory>
    requires builder { IsBuilder builder.now }
    requires early { IsEarly builder.now count places }
    ensures { IfOk result (λ w. whole_of w ≡ joined_on And (whole_of whole) (gathered (λ j. guarded (body_in builder.now) (early_term (body_in builder.now) j) places ∷ []) count)) }
{
    let mut members = whole;
    for turns in 0..count {
        let stage = Stage::Early { turns, places };
        members = match put_guard(alloc, builder, members, stage) {
            Ok(more) => more,
            Err(error) => return Err(error),
        };
    }
    Ok(members)
}

/// The number at the place is 1.
#[tactic(auto, unfolding(formula_core::specs::Terms::coefficient_at))]
pub(crate) fn one(alloc: Global, place: u32) -> Result<Formula, Memory>
    ensures { IfOk result (λ f. formula_of f ≡ is_one place) }
{
    let mut term = Linear::new(alloc, 1);
    match term.add(place, 1) {
        Ok(()) => Ok(Formula::Eq(term)),
        Err(error) => Err(error),
    }
}

/// It is at least 1.
#[tactic(auto, unfolding(formula_core::specs::Terms::coefficient_at))]
pub(crate) fn some(alloc: Global, place: u32) -> Result<Formula, Memory>
    ensures { IfOk result (λ f. formula_of f ≡ is_some place) }
{
    let mut term = Linear::new(alloc, -1);
    match term.add(place, -1) {
        Ok(()) => Ok(Formula::Le(term)),
        Err(error) => Err(error),
    }
}
