//! The names of calls: a set that is kept, with an argument for each of its variables.

ghost use Rattle.std.specs.Prelude.{◌≡◌, ◌≤◌, length, map};
ghost use Rattle.formula_core.specs.Variables.{sort_of};
ghost use Rattle.script_names.specs.Kept.{kept_set, sets_of};
ghost use Rattle.script_names.specs.Scopes.{sort_named};
ghost use Rattle.script_names.specs.Faults.{mismatched, argument_part_fault, argument_fault, arguments_fault, call_fault};
ghost use Rattle.script_syntax.specs.Trees.{named_of, part_of, term_of};

use crate::kept::Defs;
use crate::names::{FaultAt, NameFault};
use crate::scope::Scope;
use formula_core::Sort;
use script_syntax::{NameAt, Part, Term};

// A name in an argument for a variable of the sort.
fn argument_name(wanted: Sort, scope: &Scope<'_>, name: &NameAt<'_>) -> Option<FaultAt>
    ensures { result ≡ mismatched (named_of name.now) (sort_of wanted) (sort_named scope.now (named_of name.now).left) }
{
    match (scope.sort(name.bytes), wanted) {
        (Some(Sort::Int), _) | (Some(Sort::Real), Sort::Real) => None,
        (Some(Sort::Real), Sort::Int) => Some(FaultAt {
            fault: NameFault::Misused,
            place: name.place,
        }),
        (None, _) => Some(FaultAt {
            fault: NameFault::Unknown,
            place: name.place,
        }),
    }
}

fn argument_part(wanted: Sort, scope: &Scope<'_>, part: &Part<'_>) -> Option<FaultAt>
    ensures { result ≡ argument_part_fault (sort_of wanted) scope.now (part_of part.now) }
{
    match part {
        Part::Constant(_) => None,
        Part::Scaled(_, name) | Part::Variable(name) => argument_name(wanted, scope, name),
    }
}

/// The first wrong name of a term that stands for a variable of the sort: one that is not declared, or a real one where the sort is Int.
pub fn argument_names(wanted: Sort, scope: &Scope<'_>, term: &Term<'_>) -> Option<FaultAt>
    ensures { result ≡ argument_fault (sort_of wanted) scope.now (term_of term.now) }
{
    for signed in &term.parts {
        let fault = argument_part(wanted, scope, &signed.part);
        if fault.is_some() {
            return fault;
        }
    }
    None
}

// The first wrong name of arguments for variables of the sorts, of which there are as many.
fn arguments_names(scope: &Scope<'_>, sorts: &[Sort], terms: &[Term<'_>]) -> Option<FaultAt>
    requires { length terms.now ≡ length sorts.now }
    ensures { result ≡ arguments_fault scope.now (map sort_of sorts.now) (map term_of terms.now) }
{
    for at in 0..terms.len() {
        let fault = argument_names(sorts[at], scope, &terms[at]);
        if fault.is_some() {
            return fault;
        }
    }
    None
}

/// The first wrong name of a call: its set's, where none is kept or it has another number of variables, or one in its arguments.
pub fn call_names(
    defs: &Defs,
    scope: &Scope<'_>,
    name: &NameAt<'_>,
    terms: &[Term<'_>],
) -> Option<FaultAt>
    ensures { result ≡ call_fault (kept_set (sets_of defs.now) (named_of name.now).left) scope.now (named_of name.now) (map term_of terms.now) }
{
    let sorts = match defs.place(name.bytes) {
        Some(at) => defs.vars(at).sorts(),
        None => {
            return Some(FaultAt {
                fault: NameFault::Unknown,
                place: name.place,
            });
        }
    };
    if terms.len() == sorts.len() {
        arguments_names(scope, sorts, terms)
    } else {
        Some(FaultAt {
            fault: NameFault::Misused,
            place: name.place,
        })
    }
}
