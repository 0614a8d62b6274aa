//! Calls of kept sets: their arguments as terms, and their formulas with these put for the variables.

ghost use Rattle.std.specs.Prelude.{◌≡◌, ◌≤◌, ◌+◌, ℕ, All, IfOk, IfSome, false, length, map, min};
ghost use Rattle.std.specs.Option.{option_map};
ghost use Rattle.formula_core.specs.Counts.{nodes_of, depth_of, count_limit};
ghost use Rattle.formula_core.specs.Shape.{formula_of};
ghost use Rattle.term_substitution.specs.Conditions.{IsOver, IsSubstitute, variables_limit};
ghost use Rattle.term_substitution.specs.Limits.{depth_limit};
ghost use Rattle.term_substitution.specs.Passing.{AreAtomsJudged};
ghost use Rattle.script_names.specs.Kept.{kept_set, sets_of};
ghost use Rattle.script_names.specs.Scopes.{Scope as ScopeOfModel};
ghost use Rattle.script_meaning.specs.Core.{argument as argument_of, callee as callee_of, called};
ghost use Rattle.script_meaning.specs.Limits.{parts_of, term_passes, terms_pass, terms_limit};
ghost use Rattle.script_syntax.specs.Trees.{named_of, term_of};

use crate::formulas::truth;
use crate::terms::{add_term, constant};
use formula_core::{Formula, Linear, depth, nodes};
use lash_io::Memory;
use script_names::{Defs, Scope};
use script_syntax::{NameAt, Term};
use std::alloc::Global;
use term_substitution::{Passed, judge, replace};

/// The term of an argument. No number passes the limit of literals, and there are at most 65,536 variables in scope and at most as many
/// parts, as conditions. Only want of memory is refused.
pub fn argument(alloc: Global, scope: &Scope<'_>, term: &Term<'_>) -> Result<Linear, Memory>
    requires scope { length scope.now ≤ terms_limit }
    requires literals { term_passes (term_of term.now) ≡ false }
    requires count { length term.now.parts.items ≤ terms_limit }
    ensures argument { IfOk result (λ a. a ≡ argument_of scope.now (term_of term.now)) }
    ensures substitute { IfOk result (λ a. IsSubstitute (length scope.now) a) }
{
    let mut linear = Linear::new(alloc, constant(term));
    match add_term(scope, &mut linear, term, false) {
        Ok(()) => Ok(linear),
        Err(error) => Err(error),
    }
}

// The terms of arguments.
fn arguments(alloc: Global, scope: &Scope<'_>, terms: &[Term<'_>]) -> Result<Vec<Linear>, Memory>
    requires scope { length scope.now ≤ terms_limit }
    requires literals { terms_pass (map term_of terms.now) ≡ false }
    requires size { parts_of (map term_of terms.now) ≤ terms_limit }
    ensures arguments { IfOk result (λ linears. linears.items ≡ map (argument_of scope.now) (map term_of terms.now)) }
    ensures substitutes { IfOk result (λ linears. All (IsSubstitute (length scope.now)) linears.items) }
{
    let mut linears = Vec::new(alloc);
    for term in terms {
        let linear = match argument(alloc, scope, term) {
            Ok(linear) => linear,
            Err(error) => return Err(error),
        };
        if linears.push(linear).is_err() {
            return Err(Memory);
        }
    }
    Ok(linears)
}

// The formula of the kept set of the name, if it has so many variables.
fn callee<'a>(defs: &'a Defs, name: &NameAt<'_>, count: usize) -> Option<&'a Formula>
    ensures callee { option_map (λ f. formula_of f.now) result ≡ callee_of (kept_set (sets_of defs.now) (named_of name.now).left) count }
    ensures few { IfSome result (λ f. count ≤ variables_limit) }
    ensures over { IfSome result (λ f. IsOver count (formula_of f.now)) }
    ensures depth { IfSome result (λ f. depth_of (formula_of f.now) ≤ depth_limit) }
{
    match defs.place(name.bytes) {
        Some(at) => {
            if count == defs.vars(at).sorts().len() {
                Some(defs.formula(at))
            } else {
                None
            }
        }
        None => None,
    }
}

/// How many nodes the formula of a call has, or 2^64 - 1 where there are more.
pub fn call_nodes(defs: &Defs, name: &NameAt<'_>, terms: &[Term<'_>]) -> u64
    ensures { (scope : ScopeOfModel) → result ≡ min (nodes_of (called (callee_of (kept_set (sets_of defs.now) (named_of name.now).left) (length (map term_of terms.now))) scope (map term_of terms.now))) count_limit }
{
    match callee(defs, name, terms.len()) {
        Some(formula) => nodes(formula),
        None => 1,
    }
}

/// How many nodes the longest way down the formula of a call has, or 2^64 - 1 where there are more.
pub fn call_depth(defs: &Defs, name: &NameAt<'_>, terms: &[Term<'_>]) -> u64
    ensures { (scope : ScopeOfModel) → result ≡ min (depth_of (called (callee_of (kept_set (sets_of defs.now) (named_of name.now).left) (length (map term_of terms.now))) scope (map term_of terms.now))) count_limit }
{
    match callee(defs, name, terms.len()) {
        Some(formula) => depth(formula),
        None => 1,
    }
}

/// Which of the limits of coefficients and constants some atom of a call's formula passes.
pub fn call_atoms(
    alloc: Global,
    defs: &Defs,
    scope: &Scope<'_>,
    name: &NameAt<'_>,
    terms: &[Term<'_>],
) -> Result<Passed, Memory>
    requires scope { length scope.now ≤ terms_limit }
    requires literals { terms_pass (map term_of terms.now) ≡ false }
    requires size { parts_of (map term_of terms.now) ≤ terms_limit }
    ensures { IfOk result (λ p. AreAtomsJudged p (called (callee_of (kept_set (sets_of defs.now) (named_of name.now).left) (length (map term_of terms.now))) scope.now (map term_of terms.now))) }
{
    let formula = match callee(defs, name, terms.len()) {
        Some(formula) => formula,
        None => {
            return Ok(Passed {
                coefficients: false,
                constant: false,
            });
        }
    };
    match arguments(alloc, scope, terms) {
        Ok(linears) => match judge(alloc, formula, &linears, scope.len() as u32) {
            Ok(passed) => Ok(passed),
            Err(error) => Err(error),
        },
        Err(error) => Err(error),
    }
}

/// The formula of a call.
pub fn call_formula(
    alloc: Global,
    defs: &Defs,
    scope: &Scope<'_>,
    name: &NameAt<'_>,
    terms: &[Term<'_>],
) -> Result<Formula, Memory>
    requires scope { length scope.now ≤ terms_limit }
    requires literals { terms_pass (map term_of terms.now) ≡ false }
    requires size { parts_of (map term_of terms.now) ≤ terms_limit }
    ensures { IfOk result (λ f. formula_of f ≡ called (callee_of (kept_set (sets_of defs.now) (named_of name.now).left) (length (map term_of terms.now))) scope.now (map term_of terms.now)) }
{
    let formula = match callee(defs, name, terms.len()) {
        Some(formula) => formula,
        None => return Ok(truth(alloc, false)),
    };
    match arguments(alloc, scope, terms) {
        Ok(linears) => match replace(alloc, formula, &linears, scope.len() as u32) {
            Ok(formula) => Ok(formula),
            Err(error) => Err(error),
        },
        Err(error) => Err(error),
    }
}
