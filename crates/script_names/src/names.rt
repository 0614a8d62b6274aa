//! The names of a formula, judged from left to right (own). Lists of `and` and `or` are walked by loops, so the recursion is no deeper than
//! the nesting.

ghost use Rattle.std.specs.Prelude.{◌≡◌, ◌++◌, ◌≤◌, length, map, None};
ghost use Rattle.script_names.specs.Scopes.{place_of, with_declared};
ghost use Rattle.script_names.specs.Kept.{sets_of};
ghost use Rattle.script_names.specs.Faults.{unknown, part_fault, term_fault, declared_fault, tree_fault, or_else};
ghost use Rattle.script_names.specs.Answers.{IsChecked, AreDeclared};
ghost use Rattle.script_syntax.specs.Trees.{named_of, part_of, term_of, declaration_of, tree_of};

use crate::calls::call_names;
use crate::kept::Defs;
use crate::scope::Scope;
use script_syntax::{Declaration, NameAt, Part, Term, Tree};

/// What is wrong about a name.
#[derive(Clone, Copy, PartialEq, Eq, Debug)]
pub enum NameFault {
    /// It is not declared in scope, or no set of the name is kept.
    Unknown,
    /// It is declared in scope already, or a set of the name is kept already.
    Repeated,
    /// It stands for something of another kind.
    Misused,
}

/// A fault with the number of script bytes before its name.
#[derive(Clone, Copy, PartialEq, Eq, Debug)]
pub struct FaultAt {
    pub fault: NameFault,
    pub place: u64,
}

/// Why names are not taken.
#[derive(Clone, Copy, PartialEq, Eq, Debug)]
pub enum NameError {
    Fault(FaultAt),
    Memory,
}

// A name that has to be in scope.
fn name_fault(scope: &Scope<'_>, name: &NameAt<'_>) -> Option<FaultAt>
    ensures { result ≡ unknown (named_of name.now) (place_of scope.now (named_of name.now).left) }
{
    match scope.place(name.bytes) {
        Some(_) => None,
        None => Some(FaultAt {
            fault: NameFault::Unknown,
            place: name.place,
        }),
    }
}

fn part_names(scope: &Scope<'_>, part: &Part<'_>) -> Option<FaultAt>
    ensures { result ≡ part_fault scope.now (part_of part.now) }
{
    match part {
        Part::Constant(_) => None,
        Part::Scaled(_, name) | Part::Variable(name) => name_fault(scope, name),
    }
}

// The first wrong name of a term.
fn term_names(scope: &Scope<'_>, term: &Term<'_>) -> Option<FaultAt>
    ensures { result ≡ term_fault scope.now (term_of term.now) }
{
    for signed in &term.parts {
        let fault = part_names(scope, &signed.part);
        if fault.is_some() {
            return fault;
        }
    }
    None
}

fn as_answer(fault: Option<FaultAt>) -> Result<(), NameError>
    ensures { IsChecked fault result }
{
    match fault {
        Some(fault) => Err(NameError::Fault(fault)),
        None => Ok(()),
    }
}

/// Declares variables in their order. The first that is in scope already is repeated.
pub fn declare_all<'a>(
    scope: &mut Scope<'a>,
    declarations: &[Declaration<'a>],
) -> Result<(), NameError>
    ensures { AreDeclared scope.old (map declaration_of declarations.now) scope.new result }
{
    for declaration in declarations {
        match scope.declare(declaration) {
            Ok(()) => {}
            Err(error) => return Err(error),
        }
    }
    Ok(())
}

/// Judges the names of a formula. The scope is afterwards as it was.
#[cycle(names)]
pub fn check_names<'a>(defs: &Defs, scope: &mut Scope<'a>, tree: &Tree<'a>) -> Result<(), NameError>
    ensures checked { IsChecked (tree_fault (sets_of defs.now) scope.old (tree_of tree.now)) result }
    ensures scope { scope.new ≡ scope.old }
{
    let mut first = tree;
    let mut later = Ok(());
    while let Tree::And(left, right) | Tree::Or(left, right) = first {
        match check_names(defs, scope, right) {
            Ok(()) => {}
            Err(error) => later = Err(error),
        }
        first = left;
    }
    match check_unit(defs, scope, first) {
        Ok(()) => later,
        Err(error) => Err(error),
    }
}

// The same of a formula that is no list of `and` or `or`.
#[cycle(names)]
fn check_unit<'a>(defs: &Defs, scope: &mut Scope<'a>, tree: &Tree<'a>) -> Result<(), NameError>
    ensures checked { IsChecked (tree_fault (sets_of defs.now) scope.old (tree_of tree.now)) result }
    ensures scope { scope.new ≡ scope.old }
{
    match tree {
        Tree::Truth(_) => Ok(()),
        Tree::Compare(left, _, right) => match term_names(scope, left) {
            Some(fault) => Err(NameError::Fault(fault)),
            None => as_answer(term_names(scope, right)),
        },
        Tree::Call(name, terms) => as_answer(call_names(defs, scope, name, terms)),
        Tree::Not(inner) => check_names(defs, scope, inner),
        Tree::And(left, right)
        | Tree::Or(left, right)
        | Tree::Implies(left, right)
        | Tree::Equivalent(left, right) => match check_names(defs, scope, left) {
            Ok(()) => check_names(defs, scope, right),
            Err(error) => Err(error),
        },
        Tree::Quantified(_, declarations, inner) => {
            let count = scope.len();
            let answer = match declare_all(scope, declarations) {
                Ok(()) => check_names(defs, scope, inner),
                Err(error) => Err(error),
            };
            scope.leave(count);
            answer
        }
    }
}
