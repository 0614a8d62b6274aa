//! What a set of a script stands for: its variables and its core formula, or the first fault of its names, or the first limit that it
//! passes (own).

ghost use Rattle.std.specs.Prelude.{◌≡◌, ◌≤◌, ◌<◌, ◌+◌, All, IfOk, length, map, [], None};
ghost use Rattle.formula_core.specs.Names.{IsVariableName};
ghost use Rattle.script_syntax.specs.Trees.{declaration_of, tree_of};
ghost use Rattle.script_names.specs.Kept.{sets_of};
ghost use Rattle.script_meaning.specs.Limits.{literal_passes, size_of, terms_limit};
ghost use Rattle.script_meaning.specs.Resolving.{IsResolved, IsBuilt, IsLettered, IsNamed, atom_passed, first_passed};
ghost use Rattle.script_meaning.specs.Core.{core};
ghost use Rattle.formula_core.specs.Shape.{formula_of};

use crate::atoms::judge_atoms;
use crate::counts::{depth, nodes};
use crate::formulas::core_formula;
use crate::limits::Which;
use crate::literals::has_great_literal;
use digit_codes::Base;
use formula_core::{Formula, Vars, are_few, fits_letters};
use lash_io::Memory;
use script_names::{Defs, FaultAt, NameError, Scope, check_names, declare_all, variables};
use script_syntax::{Declaration, Tree};
use std::alloc::Global;
use term_substitution::Passed;

/// Declared variables and a core formula over them.
#[derive(Debug, Drop)]
pub struct Resolved {
    pub vars: Vars,
    pub formula: Formula,
}

/// Why a set is refused.
#[derive(Clone, Copy, PartialEq, Eq, Debug)]
pub enum Refusal {
    /// A name is wrong, and none before it.
    Fault(FaultAt),
    /// The names are right, and a limit is passed, the first in the order of `Which`.
    Limit(Which),
    Memory,
}

/// The variables and the core formula of a set of a script, where these sets are kept. `full` says that the set is to be kept, and that one
/// more would be too many. Conditions: the declared names are variables' names, and there are at most 65,536 declarations and parts of terms
/// together.
///
/// # Errors
/// `Fault` at the first wrong name from left to right. `Limit`, where all names are right, with the first limit in the order of `Which` that
/// the formula passes anywhere. `Memory` where memory is wanting.
pub fn resolve<'a>(
    alloc: Global,
    base: Base,
    defs: &Defs,
    full: bool,
    vars: &[Declaration<'a>],
    formula: &Tree<'a>,
) -> Result<Resolved, Refusal>
    requires named { All (λ d. IsVariableName (declaration_of d).name.left) vars.now }
    requires size { length vars.now + size_of (tree_of formula.now) ≤ terms_limit }
    ensures { IsResolved full base (sets_of defs.now) (map declaration_of vars.now) (tree_of formula.now) result }
{
    let mut scope = Scope::new(alloc);
    match named(defs, &mut scope, vars, formula) {
        Ok(()) => {}
        Err(NameError::Fault(fault)) => return Err(Refusal::Fault(fault)),
        Err(NameError::Memory) => return Err(Refusal::Memory),
    }
    match built(alloc, base, defs, full, &mut scope, formula) {
        Ok(formula) => match variables(alloc, vars) {
            Ok(vars) => Ok(Resolved { vars, formula }),
            Err(_) => Err(Refusal::Memory),
        },
        Err(refusal) => Err(refusal),
    }
}

// Judges all the names. The variables are in scope afterwards.
fn named<'a>(
    defs: &Defs,
    scope: &mut Scope<'a>,
    vars: &[Declaration<'a>],
    formula: &Tree<'a>,
) -> Result<(), NameError>
    requires { scope.old ≡ [] }
    ensures { IsNamed (sets_of defs.now) (map declaration_of vars.now) (tree_of formula.now) scope.new result }
{
    match declare_all(scope, vars) {
        Ok(()) => check_names(defs, scope, formula),
        Err(error) => Err(error),
    }
}

/// The first limit that a formula over the variables in scope passes, the letters left out of account: `Literal`, `Sets` where one more kept
/// set would be too many, `Nodes`, `Depth`, `Coefficient` or `Constant`. Its names are right, and it has at most 65,536 variables in scope and
/// parts of terms together, as conditions. The scope is afterwards as it was. Only want of memory is refused.
pub fn first_limit<'a>(
    alloc: Global,
    defs: &Defs,
    full: bool,
    scope: &mut Scope<'a>,
    formula: &Tree<'a>,
) -> Result<Option<Which>, Memory>
    requires { length scope.old + size_of (tree_of formula.now) ≤ terms_limit }
    ensures limit { IfOk result (λ which. which ≡ first_passed full (tree_of formula.now) (core (sets_of defs.now) scope.old (tree_of formula.now))) }
    ensures scope { scope.new ≡ scope.old }
{
    if has_great_literal(formula) {
        return Ok(Some(Which::Literal));
    }
    if full {
        return Ok(Some(Which::Sets));
    }
    if nodes(defs, formula) > NODES_LIMIT {
        return Ok(Some(Which::Nodes));
    }
    if depth(defs, formula) > DEPTH_LIMIT {
        return Ok(Some(Which::Depth));
    }
    match judge_atoms(alloc, defs, scope, formula) {
        Ok(passed) => Ok(atom_limit(passed)),
        Err(error) => Err(error),
    }
}

const NODES_LIMIT: u64 = 4096;

const DEPTH_LIMIT: u64 = 256;

// Coefficients come before constants.
fn atom_limit(passed: Passed) -> Option<Which>
    ensures { result ≡ atom_passed passed }
{
    if passed.coefficients {
        Some(Which::Coefficient)
    } else if passed.constant {
        Some(Which::Constant)
    } else {
        None
    }
}

// The core formula, if no limit is passed.
fn built<'a>(
    alloc: Global,
    base: Base,
    defs: &Defs,
    full: bool,
    scope: &mut Scope<'a>,
    formula: &Tree<'a>,
) -> Result<Formula, Refusal>
    requires { length scope.old + size_of (tree_of formula.now) ≤ terms_limit }
    ensures { IsBuilt full base (sets_of defs.now) scope.old (tree_of formula.now) result }
{
    match first_limit(alloc, defs, full, scope, formula) {
        Ok(None) => {}
        Ok(Some(which)) => return Err(Refusal::Limit(which)),
        Err(_) => return Err(Refusal::Memory),
    }
    let places = scope.len() as u32;
    // Over too many places the atoms may be too large to be laid out.
    if !are_few(base.radix(), places) {
        return Err(Refusal::Limit(Which::Letters));
    }
    match core_formula(alloc, defs, scope, formula) {
        Ok(core) => lettered(base, places, core),
        Err(_) => Err(Refusal::Memory),
    }
}

// The formula, if its letters are few.
fn lettered(base: Base, places: u32, formula: Formula) -> Result<Formula, Refusal>
    ensures { IsLettered base places (formula_of formula) result }
{
    if fits_letters(base, &formula, places) {
        Ok(formula)
    } else {
        Err(Refusal::Limit(Which::Letters))
    }
}
