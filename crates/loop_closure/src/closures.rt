//! The closure of a loop as a formula. With p the least number from 1 to 12 with A^(2p) = A^p, the numbers of turns are those below p and, for
//! each remainder of p, those beyond a multiple of p.

ghost use Rattle.std.specs.Prelude.{◌≡◌, ◌≤◌, ◌<◌, ℕ, IfOk, IfErr, None, true, false, [], ◌∷◌, pos, negsuc};
ghost use Rattle.formula_core.specs.Counts.{binds_ints, nodes_of};
ghost use Rattle.formula_core.specs.Shape.{formula_of};
ghost use Rattle.loop_closure.specs.Bodies.{body_of};
ghost use Rattle.loop_closure.specs.Closing.{IsBody, IsClosed, IsUnclosed};
ghost use Rattle.loop_laws.specs.Closures.{closure_of, places_of, same};
ghost use Rattle.matrix_powers.specs.Matrices.{IsSquare};
ghost use Rattle.matrix_powers.specs.Powers.{IsLeastPower};
ghost use Rattle.term_substitution.specs.Conditions.{IsOver};
ghost use Rattle.term_substitution.specs.Limits.{first_passed};

use crate::body::LoopBody;
use crate::branches::all_branches;
use crate::builder::Builder;
use crate::counts::has_many_nodes;
use crate::errors::LoopError;
use crate::limits::{limit, refused};
use formula_core::{Formula, Linear};
use lash_io::Memory;
use matrix_powers::{Orbit, power};
use std::alloc::Global;

// The equation of two variables.
#[tactic(auto, unfolding(formula_core::specs::Terms::coefficient_at, formula_core::specs::Terms::added))]
fn two_variables(alloc: Global) -> Result<Formula, Memory>
    ensures { IfOk result (λ f. formula_of f ≡ same) }
{
    let mut term = Linear::new(alloc, 0);
    match term.add(0, 1) {
        Ok(()) => {}
        Err(error) => return Err(error),
    }
    match term.add(1, -1) {
        Ok(()) => Ok(Formula::Eq(term)),
        Err(error) => Err(error),
    }
}

// What the parts of the closure are built from.
fn prepared(alloc: Global, body: &LoopBody, power: u32, counted: bool) -> Result<Builder, Memory>
    requires body { IsBody (body_of body.now) }
    requires least { IsLeastPower body.now.matrix power }
    ensures orbit { IfOk result (λ b. b.orbit ≡ record { matrix = body.now.matrix; shift = body.now.shift; power = power }) }
    ensures guard { IfOk result (λ b. formula_of b.guard ≡ formula_of body.now.guard) }
    ensures equation { IfOk result (λ b. formula_of b.same ≡ same) }
    ensures counted { IfOk result (λ b. b.counted ≡ counted) }
{
    let orbit = match Orbit::new(alloc, &body.matrix, &body.shift, power) {
        Ok(orbit) => orbit,
        Err(error) => return Err(error),
    };
    let guard = match body.guard.copied(alloc) {
        Ok(guard) => guard,
        Err(error) => return Err(error),
    };
    match two_variables(alloc) {
        Ok(same) => Ok(Builder {
            orbit,
            guard,
            same,
            counted,
        }),
        Err(error) => Err(error),
    }
}

// The closure over a power, whatever limits it passes.
fn built(alloc: Global, body: &LoopBody, power: u32, counted: bool) -> Result<Formula, Memory>
    requires body { IsBody (body_of body.now) }
    requires square { IsSquare body.now.matrix }
    requires least { IsLeastPower body.now.matrix power }
    ensures { IfOk result (λ f. formula_of f ≡ closure_of counted (body_of body.now) power) }
{
    let builder = match prepared(alloc, body, power, counted) {
        Ok(builder) => builder,
        Err(error) => return Err(error),
    };
    match all_branches(alloc, &builder) {
        Ok(formula) => Ok(formula),
        Err(error) => Err(error),
    }
}

// The closure over the least power.
fn closure_over(
    alloc: Global,
    body: &LoopBody,
    power: u32,
    counted: bool,
) -> Result<Formula, LoopError>
    requires body { IsBody (body_of body.now) }
    requires least { IsLeastPower body.now.matrix power }
    ensures formula { IfOk result (λ f. IsClosed counted (body_of body.now) (formula_of f)) }
    ensures within { IfOk result (λ f. first_passed (formula_of f) ≡ None) }
    ensures over { IfOk result (λ f. IsOver (places_of counted (body_of body.now)) (formula_of f)) }
    ensures ints { IfOk result (λ f. binds_ints (formula_of f) ≡ true) }
    ensures cause { IfErr result (λ e. IsUnclosed counted (body_of body.now) e) }
{
    if has_many_nodes(body, power, counted) {
        return Err(LoopError::Nodes);
    }
    match built(alloc, body, power, counted) {
        Ok(formula) => match limit(&formula) {
            Some(error) => Err(refused(error)),
            None => Ok(formula),
        },
        Err(_) => Err(LoopError::Memory),
    }
}

// The closure, with the number of turns or without it.
fn closed(alloc: Global, body: &LoopBody, counted: bool) -> Result<Formula, LoopError>
    requires { IsBody (body_of body.now) }
    ensures formula { IfOk result (λ f. IsClosed counted (body_of body.now) (formula_of f)) }
    ensures within { IfOk result (λ f. first_passed (formula_of f) ≡ None) }
    ensures over { IfOk result (λ f. IsOver (places_of counted (body_of body.now)) (formula_of f)) }
    ensures ints { IfOk result (λ f. binds_ints (formula_of f) ≡ true) }
    ensures cause { IfErr result (λ e. IsUnclosed counted (body_of body.now) e) }
{
    match power(alloc, &body.matrix) {
        Ok(found) => match found {
            Some(power) => match closure_over(alloc, body, power, counted) {
                Ok(formula) => Ok(formula),
                Err(error) => Err(error),
            },
            None => Err(LoopError::NoPower),
        },
        Err(_) => Err(LoopError::Memory),
    }
}

/// The closure of the loop: a formula over x and y, n variables each, that holds where some number of turns leads from x to y. Conditions:
/// the guard is one comparison or several that hold together, over n variables, of at most 4,096 nodes and a depth of at most 256, with
/// atoms inside the limits; the shift has n entries of at most 2^40 in magnitude.
///
/// # Errors
/// `NoPower` where no power of the matrix from 1 to 12 comes again with entries of at most 2^40. `Nodes`, `Depth`, `Coefficient` and
/// `Constant` where the closure passes that limit, the first in this order: more than 4,096 nodes, a depth of more than 256, coefficients
/// of an atom whose magnitudes sum to more than 2^24, a constant of an atom of more than 2^40 in magnitude. `Memory` where memory is
/// wanting.
pub fn closure(alloc: Global, body: &LoopBody) -> Result<Formula, LoopError>
    requires { IsBody (body_of body.now) }
    ensures formula { IfOk result (λ f. IsClosed false (body_of body.now) (formula_of f)) }
    ensures within { IfOk result (λ f. first_passed (formula_of f) ≡ None) }
    ensures over { IfOk result (λ f. IsOver (places_of false (body_of body.now)) (formula_of f)) }
    ensures ints { IfOk result (λ f. binds_ints (formula_of f) ≡ true) }
    ensures cause { IfErr result (λ e. IsUnclosed false (body_of body.now) e) }
{
    match closed(alloc, body, false) {
        Ok(formula) => Ok(formula),
        Err(error) => Err(error),
    }
}

/// The closure of the loop with the number of turns as one more variable behind x and y. The conditions and the errors are those of
/// `closure`.
pub fn closure_counted(alloc: Global, body: &LoopBody) -> Result<Formula, LoopError>
    requires { IsBody (body_of body.now) }
    ensures formula { IfOk result (λ f. IsClosed true (body_of body.now) (formula_of f)) }
    ensures within { IfOk result (λ f. first_passed (formula_of f) ≡ None) }
    ensures over { IfOk result (λ f. IsOver (places_of true (body_of body.now)) (formula_of f)) }
    ensures ints { IfOk result (λ f. binds_ints (formula_of f) ≡ true) }
    ensures cause { IfErr result (λ e. IsUnclosed true (body_of body.now) e) }
{
    match closed(alloc, body, true) {
        Ok(formula) => Ok(formula),
        Err(error) => Err(error),
    }
}
