//! The terms of a vector after turns.

ghost use Rattle.std.specs.Prelude.{◌≡◌, ◌≤◌, ◌<◌, ◌+◌, ◌*◌, ◌^◌, ◌-ℤ◌, ◌*ℤ◌, ℕ, [], ◌∷◌, All, IfOk, OnOk, pos, unsigned_abs};
ghost use Rattle.formula_core.specs.Terms.{added, coefficient_at};
ghost use Rattle.loop_closure.specs.Builders.{IsBuilder, IsEarly, IsLate, IsStage, body_in, stage_places, stage_term};
ghost use Rattle.loop_laws.specs.Closures.{coefficients, early_term, gathered, late_term};
ghost use Rattle.matrix_powers.specs.Matrices.{power_entry};
ghost use Rattle.matrix_powers.specs.Orbits.{shifted, stride};
ghost use Rattle.term_substitution.specs.Conditions.{IsSubstitute};

use crate::builder::{Builder, Stage};
use formula_core::Linear;
use lash_io::Memory;
use std::alloc::Global;

// Adds the coefficient at a column, where the term has none.
fn add_coefficient(
    builder: &Builder,
    term: &mut Linear,
    turns: u32,
    row: u32,
    column: u32,
) -> Result<(), Memory>
    requires turns { turns ≤ builder.now.orbit.power + builder.now.orbit.power }
    requires row { row < builder.now.orbit.matrix.side }
    requires column { column < builder.now.orbit.matrix.side }
    requires fresh { coefficient_at term.old.terms column ≡ pos 0 }
    ensures added { OnOk result (term.new ≡ record { terms = added term.old.terms column (power_entry builder.now.orbit.matrix turns row column); constant = term.old.constant }) }
    ensures small { unsigned_abs (power_entry builder.now.orbit.matrix turns row column) ≤ 2 ^ 40 }
{
    match term.add(column, builder.orbit.coefficient(turns, row, column)) {
        Ok(()) => Ok(()),
        Err(error) => Err(error),
    }
}

// Adds the coefficients of a row after turns.
fn add_coefficients(
    builder: &Builder,
    term: &mut Linear,
    turns: u32,
    row: u32,
) -> Result<(), Memory>
    requires turns { turns ≤ builder.now.orbit.power + builder.now.orbit.power }
    requires row { row < builder.now.orbit.matrix.side }
    requires none { term.old.terms ≡ [] }
    ensures added { OnOk result (term.new ≡ record { terms = coefficients (power_entry builder.now.orbit.matrix turns row) builder.now.orbit.matrix.side; constant = term.old.constant }) }
    ensures small { OnOk result ((column : ℕ) → column < builder.now.orbit.matrix.side → unsigned_abs (power_entry builder.now.orbit.matrix turns row column) ≤ 2 ^ 40) }
{
    for column in 0..builder.orbit.side() {
        match add_coefficient(builder, term, turns, row, column) {
            Ok(()) => {}
            Err(error) => return Err(error),
        }
    }
    Ok(())
}

// The row after turns.
fn early(alloc: Global, builder: &Builder, turns: u32, row: u32) -> Result<Linear, Memory>
    requires builder { IsBuilder builder.now }
    requires turns { turns ≤ builder.now.orbit.power + builder.now.orbit.power }
    requires row { row < builder.now.orbit.matrix.side }
    ensures term { IfOk result (λ t. t ≡ early_term (body_in builder.now) turns row) }
    ensures substitute { IfOk result (λ t. (places : ℕ) → builder.now.orbit.matrix.side ≤ places → IsSubstitute places t) }
{
    let mut term = Linear::new(alloc, builder.orbit.constant(turns, row));
    match add_coefficients(builder, &mut term, turns, row) {
        Ok(()) => Ok(term),
        Err(error) => Err(error),
    }
}

// How far so many times the power's turns lead back at the row.
fn way_back(builder: &Builder, remainder: u32, back: u32, row: u32) -> i128
    requires builder { IsBuilder builder.now }
    requires remainder { remainder < builder.now.orbit.power }
    requires back { back ≤ 2 }
    requires row { row < builder.now.orbit.matrix.side }
    ensures value { result ≡ pos back *ℤ stride builder.now.orbit.matrix builder.now.orbit.shift builder.now.orbit.power remainder row }
    ensures small { unsigned_abs result ≤ 24 * 2 ^ 82 }
{
    back as i128 * builder.orbit.stride(remainder, row)
}

// The constant of the row after turns beyond a multiple of the power.
fn late_constant(builder: &Builder, remainder: u32, back: u32, row: u32) -> i128
    requires builder { IsBuilder builder.now }
    requires remainder { remainder < builder.now.orbit.power }
    requires back { back ≤ 2 }
    requires row { row < builder.now.orbit.matrix.side }
    ensures value { result ≡ shifted builder.now.orbit.matrix builder.now.orbit.shift (builder.now.orbit.power + remainder) row -ℤ (pos back *ℤ stride builder.now.orbit.matrix builder.now.orbit.shift builder.now.orbit.power remainder row) }
    ensures small { unsigned_abs result ≤ 2 ^ 88 }
{
    let turns = builder.orbit.power() + remainder;
    builder.orbit.constant(turns, row) - way_back(builder, remainder, back, row)
}

// Adds the multiple at its place, which the term does not have.
fn add_stride(
    builder: &Builder,
    term: &mut Linear,
    remainder: u32,
    row: u32,
    place: u32,
) -> Result<(), Memory>
    requires builder { IsBuilder builder.now }
    requires remainder { remainder < builder.now.orbit.power }
    requires row { row < builder.now.orbit.matrix.side }
    requires fresh { coefficient_at term.old.terms place ≡ pos 0 }
    ensures added { OnOk result (term.new ≡ record { terms = added term.old.terms place (stride builder.now.orbit.matrix builder.now.orbit.shift builder.now.orbit.power remainder row); constant = term.old.constant }) }
    ensures small { unsigned_abs (stride builder.now.orbit.matrix builder.now.orbit.shift builder.now.orbit.power remainder row) ≤ 2 ^ 88 }
{
    match term.add(place, builder.orbit.stride(remainder, row)) {
        Ok(()) => Ok(()),
        Err(error) => Err(error),
    }
}

// The row after turns beyond a multiple of the power.
fn late(
    alloc: Global,
    builder: &Builder,
    remainder: u32,
    place: u32,
    back: u32,
    row: u32,
) -> Result<Linear, Memory>
    requires builder { IsBuilder builder.now }
    requires late { IsLate builder.now remainder place back }
    requires row { row < builder.now.orbit.matrix.side }
    ensures term { IfOk result (λ t. t ≡ late_term (body_in builder.now) builder.now.orbit.power remainder place back row) }
    ensures substitute { IfOk result (λ t. IsSubstitute (place + 1) t) }
{
    let mut term = Linear::new(alloc, late_constant(builder, remainder, back, row));
    let turns = builder.orbit.power() + remainder;
    match add_coefficients(builder, &mut term, turns, row) {
        Ok(()) => {}
        Err(error) => return Err(error),
    }
    match add_stride(builder, &mut term, remainder, row, place) {
        Ok(()) => Ok(term),
        Err(error) => Err(error),
    }
}

/// The row at a stage.
pub(crate) fn term(
    alloc: Global,
    builder: &Builder,
    stage: Stage,
    row: u32,
) -> Result<Linear, Memory>
    requires builder { IsBuilder builder.now }
    requires stage { IsStage builder.now stage }
    requires row { row < builder.now.orbit.matrix.side }
    ensures term { IfOk result (λ t. t ≡ stage_term builder.now stage row) }
    ensures substitute { IfOk result (λ t. IsSubstitute (stage_places stage) t) }
{
    match stage {
        Stage::Early { turns, .. } => match early(alloc, builder, turns, row) {
            Ok(term) => Ok(term),
            Err(error) => Err(error),
        },
        Stage::Late {
            remainder,
            place,
            back,
        } => match late(alloc, builder, remainder, place, back, row) {
            Ok(term) => Ok(term),
            Err(error) => Err(error),
        },
    }
}

/// All rows at a stage.
pub(crate) fn terms(alloc: Global, builder: &Builder, stage: Stage) -> Result<Vec<Linear>, Memory>
    requires builder { IsBuilder builder.now }
    requires stage { IsStage builder.now stage }
    ensures items { IfOk result (λ v. v.items ≡ gathered (λ row. stage_term builder.now stage row ∷ []) builder.now.orbit.matrix.side) }
    ensures substitutes { IfOk result (λ v. All (IsSubstitute (stage_places stage)) v.items) }
{
    let mut terms = Vec::new(alloc);
    for row in 0..builder.orbit.side() {
        let term = match term(alloc, builder, stage, row) {
            Ok(term) => term,
            Err(error) => return Err(error),
        };
        match terms.push(term) {
            Ok(()) => {}
            Err(_) => return Err(Memory),
        }
    }
    Ok(terms)
}
