//! The names and the numbers of assignments.

ghost use Rattle.std.specs.Prelude.{◌≡◌, ◌≤◌, [], false, length, map};
ghost use Rattle.script_names.specs.Answers.{IsChecked};
ghost use Rattle.script_statements.specs.Loops.{assignment_of};
ghost use Rattle.script_syntax.specs.Trees.{named_of};
ghost use Rattle.script_meaning.specs.Limits.{terms_limit};
ghost use Rattle.loop_meaning.specs.Assigning.{IsAssigned, assigned_parts, assignment_fault, assignments_fault, assignments_literal, shift_passes, target_fault};

use formula_core::Sort;
use script_meaning::{constant, term_literal};
use script_names::{FaultAt, NameError, NameFault, Scope, argument_names};
use script_statements::Assignment;
use script_syntax::{Declaration, NameAt};

// The greatest magnitude of a constant.
const SHIFT_LIMIT: u128 = 1 << 40;

// What is wrong about an assigned variable, where these were assigned before.
fn target(scope: &Scope<'_>, assigned: &Scope<'_>, name: &NameAt<'_>) -> Option<FaultAt>
    ensures { result ≡ target_fault scope.now assigned.now (named_of name.now) }
{
    if scope.place(name.bytes).is_none() {
        return Some(FaultAt {
            fault: NameFault::Unknown,
            place: name.place,
        });
    }
    match assigned.place(name.bytes) {
        Some(_) => Some(FaultAt {
            fault: NameFault::Repeated,
            place: name.place,
        }),
        None => None,
    }
}

// The first wrong name of an assignment.
fn assignment_names(
    scope: &Scope<'_>,
    assigned: &Scope<'_>,
    assignment: &Assignment<'_>,
) -> Option<FaultAt>
    ensures { result ≡ assignment_fault scope.now assigned.now (assignment_of assignment.now) }
{
    let fault = target(scope, assigned, &assignment.name);
    if fault.is_some() {
        return fault;
    }
    match scope.sort(assignment.name.bytes) {
        Some(sort) => argument_names(sort, scope, &assignment.term),
        None => None,
    }
}

// Judges the names of an assignment, whose variable is then among those that are assigned.
fn assign<'a>(
    scope: &Scope<'a>,
    assigned: &mut Scope<'a>,
    assignment: &Assignment<'a>,
) -> Result<(), NameError>
    ensures { IsAssigned scope.now assigned.old (assignment_of assignment.now) assigned.new result }
{
    match assignment_names(scope, assigned, assignment) {
        Some(fault) => return Err(NameError::Fault(fault)),
        None => {}
    }
    let declaration = Declaration {
        name: assignment.name,
        sort: Sort::Int,
    };
    match assigned.declare(&declaration) {
        Ok(()) => Ok(()),
        Err(_) => Err(NameError::Memory),
    }
}

/// Judges the names of assignments to the variables in scope. The scope of those that are assigned has none at first.
pub fn check_assignments<'a>(
    scope: &Scope<'a>,
    assigned: &mut Scope<'a>,
    assignments: &[Assignment<'a>],
) -> Result<(), NameError>
    ensures { IsChecked (assignments_fault scope.now assigned.old (map assignment_of assignments.now)) result }
{
    for assignment in assignments {
        match assign(scope, assigned, assignment) {
            Ok(()) => {}
            Err(error) => return Err(error),
        }
    }
    Ok(())
}

/// Whether some number of a term passes the limit of literals.
pub fn has_great_number(assignments: &[Assignment<'_>]) -> bool
    ensures { result ≡ assignments_literal (map assignment_of assignments.now) }
{
    for assignment in assignments {
        if term_literal(&assignment.term) {
            return true;
        }
    }
    false
}

/// Whether some constant is more than 2^40 in magnitude.
pub fn has_great_shift(assignments: &[Assignment<'_>]) -> bool
    requires literals { assignments_literal (map assignment_of assignments.now) ≡ false }
    requires size { assigned_parts (map assignment_of assignments.now) ≤ terms_limit }
    ensures { result ≡ shift_passes (map assignment_of assignments.now) }
{
    for assignment in assignments {
        if constant(&assignment.term).unsigned_abs() > SHIFT_LIMIT {
            return true;
        }
    }
    false
}
