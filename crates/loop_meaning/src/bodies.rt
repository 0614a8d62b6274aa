//! The matrix and the shift of a loop: what each variable becomes at a turn.

ghost use Rattle.std.specs.Prelude.{◌≡◌, ◌<◌, ◌≤◌, ◌+◌, ◌*◌, IfOk, IfSome, false, length, map};
ghost use Rattle.std.specs.Option.{option_map};
ghost use Rattle.formula_core.specs.Terms.{coefficient_at};
ghost use Rattle.term_substitution.specs.Substitution.{variable_term};
ghost use Rattle.script_statements.specs.Loops.{assignment_of};
ghost use Rattle.script_syntax.specs.Trees.{term_of};
ghost use Rattle.script_meaning.specs.Limits.{term_passes, terms_limit};
ghost use Rattle.loop_meaning.specs.Assigning.{AreNext, assigned_parts, assigned_to, assignments_literal, constants_of, entries_of, next_entries, next_shift, next_term};

use formula_core::Linear;
use lash_io::Memory;
use matrix_powers::{Matrix, Shift};
use script_meaning::argument;
use script_names::Scope;
use script_statements::Assignment;
use script_syntax::Term;
use std::alloc::Global;

// What the variable at a place is set to, if it is assigned.
fn assigned<'a, 'b>(
    scope: &Scope<'a>,
    assignments: &'b [Assignment<'a>],
    row: usize,
) -> Option<&'b Term<'a>>
    requires literals { assignments_literal (map assignment_of assignments.now) ≡ false }
    requires size { assigned_parts (map assignment_of assignments.now) ≤ terms_limit }
    ensures term { option_map (λ t. term_of t.now) result ≡ assigned_to scope.now (map assignment_of assignments.now) row }
    ensures literals { IfSome result (λ t. term_passes (term_of t.now) ≡ false) }
    ensures count { IfSome result (λ t. length t.now.parts.items ≤ terms_limit) }
{
    for assignment in assignments {
        if scope.place(assignment.name.bytes) == Some(row) {
            return Some(&assignment.term);
        }
    }
    None
}

// A variable alone.
#[tactic(auto, unfolding(formula_core::specs::Terms::coefficient_at, formula_core::specs::Terms::added))]
fn variable(alloc: Global, place: u32) -> Result<Linear, Memory>
    ensures { IfOk result (λ a. a ≡ variable_term place) }
{
    let mut term = Linear::new(alloc, 0);
    match term.add(place, 1) {
        Ok(()) => Ok(term),
        Err(error) => Err(error),
    }
}

// What the variable at a place becomes at a turn.
fn next(
    alloc: Global,
    scope: &Scope<'_>,
    assignments: &[Assignment<'_>],
    row: usize,
) -> Result<Linear, Memory>
    requires literals { assignments_literal (map assignment_of assignments.now) ≡ false }
    requires size { length scope.now + assigned_parts (map assignment_of assignments.now) ≤ terms_limit }
    requires row { row < length scope.now }
    ensures { IfOk result (λ a. a ≡ next_term scope.now (map assignment_of assignments.now) row) }
{
    match assigned(scope, assignments, row) {
        Some(term) => argument(alloc, scope, term),
        None => variable(alloc, row as u32),
    }
}

// What the variables become at a turn, in their order.
fn next_terms(
    alloc: Global,
    scope: &Scope<'_>,
    assignments: &[Assignment<'_>],
) -> Result<Vec<Linear>, Memory>
    requires literals { assignments_literal (map assignment_of assignments.now) ≡ false }
    requires size { length scope.now + assigned_parts (map assignment_of assignments.now) ≤ terms_limit }
    ensures { IfOk result (λ terms. AreNext scope.now (map assignment_of assignments.now) terms.items) }
{
    let mut terms = Vec::new(alloc);
    for row in 0..scope.len() {
        let term = match next(alloc, scope, assignments, row) {
            Ok(term) => term,
            Err(error) => return Err(error),
        };
        if terms.push(term).is_err() {
            return Err(Memory);
        }
    }
    Ok(terms)
}

// The coefficient of a term at a place.
#[tactic(auto, unfolding(formula_core::specs::Terms::coefficient_at))]
fn coefficient(term: &Linear, place: usize) -> i128
    ensures { result ≡ coefficient_at term.now.terms place }
{
    for part in term.terms() {
        if part.0 as usize == place {
            return part.1;
        }
    }
    0
}

// The coefficients of the terms at the places of the variables, of which there are as many; one row behind the other.
fn entries(alloc: Global, terms: &[Linear]) -> Result<Vec<i128>, Memory>
    requires { length terms.now ≤ 4 }
    ensures { IfOk result (λ entries. entries.items ≡ entries_of terms.now (length terms.now * length terms.now)) }
{
    let mut entries = Vec::new(alloc);
    for at in 0..terms.len() * terms.len() {
        let entry = coefficient(&terms[at / terms.len()], at % terms.len());
        if entries.push(entry).is_err() {
            return Err(Memory);
        }
    }
    Ok(entries)
}

// The constants of the terms.
fn constants(alloc: Global, terms: &[Linear]) -> Result<Vec<i128>, Memory>
    ensures { IfOk result (λ constants. constants.items ≡ constants_of terms.now (length terms.now)) }
{
    let mut constants = Vec::new(alloc);
    for term in terms {
        if constants.push(term.constant()).is_err() {
            return Err(Memory);
        }
    }
    Ok(constants)
}

/// The matrix and the shift of assignments to the variables in scope, of which there are one to four.
pub fn matrix_and_shift(
    alloc: Global,
    scope: &Scope<'_>,
    assignments: &[Assignment<'_>],
) -> Result<(Matrix, Shift), Memory>
    requires literals { assignments_literal (map assignment_of assignments.now) ≡ false }
    requires size { length scope.now + assigned_parts (map assignment_of assignments.now) ≤ terms_limit }
    requires some { 1 ≤ length scope.now }
    requires few { length scope.now ≤ 4 }
    ensures matrix { IfOk result (λ r. r.0 ≡ record { side = length scope.now; entries = next_entries scope.now (map assignment_of assignments.now) }) }
    ensures shift { IfOk result (λ r. r.1 ≡ next_shift scope.now (map assignment_of assignments.now)) }
{
    let terms = match next_terms(alloc, scope, assignments) {
        Ok(terms) => terms,
        Err(error) => return Err(error),
    };
    let entries = match entries(alloc, &terms) {
        Ok(entries) => entries,
        Err(error) => return Err(error),
    };
    match constants(alloc, &terms) {
        Ok(constants) => Ok((
            Matrix::of_rows(terms.len() as u32, entries),
            Shift::of_entries(constants),
        )),
        Err(error) => Err(error),
    }
}
