//! A loop of a script: the first wrong name, the first limit that is passed, or its variables and its body.

ghost use Rattle.std.specs.Prelude.{◌≡◌, Bool, [], IfOk, None, map};
ghost use Rattle.script_syntax.specs.Trees.{declaration_of, tree_of};
ghost use Rattle.script_names.specs.Kept.{sets_of};
ghost use Rattle.script_statements.specs.Loops.{constraint_of};
ghost use Rattle.loop_meaning.specs.Guards.{guard_tree};
ghost use Rattle.loop_meaning.specs.Looping.{IsLoop, IsLoopReadable, IsNamedLoop, IsBuiltLoop, loop_fault, loop_passed, scope_of, turn_of};

use crate::assignments::{check_assignments, has_great_number, has_great_shift};
use crate::bodies::matrix_and_shift;
use crate::constraints::guard;
use crate::listing::loop_vars;
use formula_core::Vars;
use lash_io::Memory;
use loop_closure::LoopBody;
use script_meaning::{Refusal, Which, core_formula, first_limit, has_great_literal};
use script_names::{Defs, NameError, Scope, check_names, declare_all};
use script_statements::Loop;
use script_syntax::Tree;
use std::alloc::Global;

/// The variables of a loop, before its turns and after them, and its body over the first half of them.
#[derive(Debug, Drop)]
pub struct Looping {
    pub vars: Vars,
    pub body: LoopBody,
}

/// The loop that a tree stands for, where these sets are kept; its own name is judged before. `full` says that one more kept set would be too
/// many. Conditions: the declared names are names, there is at least one, and there are at most 65,536 declarations and parts of terms together.
///
/// # Errors
/// `Fault` at the first wrong name from left to right: a variable that is declared already, a wrong name of the guard, a variable that is
/// assigned and not declared, one that is assigned twice, or a wrong name of an assigned term. `Limit`, where all names are right, with the first
/// limit that is passed: `Literal` anywhere, `LoopVariables` where there are more than four, `Sets`, `Nodes` to `Constant` of the guard, and
/// `Constant` where a constant of an assigned term is more than 2^40 in magnitude. `Memory` where memory is wanting.
pub fn resolve_loop(
    alloc: Global,
    defs: &Defs,
    full: bool,
    turns: &Loop<'_>,
) -> Result<Looping, Refusal>
    requires readable { IsLoopReadable (map declaration_of turns.now.vars.items) (turn_of turns.now) }
    ensures { IsLoop full (sets_of defs.now) (map declaration_of turns.now.vars.items) (turn_of turns.now) result }
{
    let tree = match guard(alloc, &turns.guard) {
        Ok(tree) => tree,
        Err(_) => return Err(Refusal::Memory),
    };
    let mut scope = Scope::new(alloc);
    match named(alloc, defs, &mut scope, turns, &tree) {
        Ok(()) => {}
        Err(NameError::Fault(fault)) => return Err(Refusal::Fault(fault)),
        Err(NameError::Memory) => return Err(Refusal::Memory),
    }
    match static_limit(alloc, defs, full, &mut scope, turns, &tree) {
        Ok(None) => {}
        Ok(Some(which)) => return Err(Refusal::Limit(which)),
        Err(_) => return Err(Refusal::Memory),
    }
    match built(alloc, defs, &mut scope, turns, &tree) {
        Ok(looping) => Ok(looping),
        Err(_) => Err(Refusal::Memory),
    }
}

// Judges all the names but the loop's own. The variables are in scope afterwards.
fn named<'a>(
    alloc: Global,
    defs: &Defs,
    scope: &mut Scope<'a>,
    turns: &Loop<'a>,
    tree: &Tree<'a>,
) -> Result<(), NameError>
    requires empty { scope.old ≡ [] }
    requires guard { tree_of tree.now ≡ guard_tree (map constraint_of turns.now.guard.items) }
    ensures { IsNamedLoop (sets_of defs.now) (map declaration_of turns.now.vars.items) (turn_of turns.now) scope.new result }
{
    match declare_all(scope, &turns.vars) {
        Ok(()) => {}
        Err(error) => return Err(error),
    }
    match check_names(defs, scope, tree) {
        Ok(()) => check_assignments(scope, &mut Scope::new(alloc), &turns.assignments),
        Err(error) => Err(error),
    }
}

const VARIABLES_LIMIT: usize = 4;

// The first limit that is passed. The scope is afterwards as it was.
fn static_limit<'a>(
    alloc: Global,
    defs: &Defs,
    full: bool,
    scope: &mut Scope<'a>,
    turns: &Loop<'a>,
    tree: &Tree<'a>,
) -> Result<Option<Which>, Memory>
    requires readable { IsLoopReadable (map declaration_of turns.now.vars.items) (turn_of turns.now) }
    requires scope { scope.old ≡ scope_of (map declaration_of turns.now.vars.items) }
    requires guard { tree_of tree.now ≡ guard_tree (map constraint_of turns.now.guard.items) }
    ensures limit { IfOk result (λ which. which ≡ loop_passed full (sets_of defs.now) (map declaration_of turns.now.vars.items) (turn_of turns.now)) }
    ensures scope { scope.new ≡ scope.old }
{
    if has_great_literal(tree) || has_great_number(&turns.assignments) {
        return Ok(Some(Which::Literal));
    }
    if turns.vars.len() > VARIABLES_LIMIT {
        return Ok(Some(Which::LoopVariables));
    }
    match first_limit(alloc, defs, full, scope, tree) {
        Ok(None) => {}
        Ok(Some(which)) => return Ok(Some(which)),
        Err(error) => return Err(error),
    }
    if has_great_shift(&turns.assignments) {
        Ok(Some(Which::Constant))
    } else {
        Ok(None)
    }
}

// The variables and the body, where no limit is passed.
fn built<'a>(
    alloc: Global,
    defs: &Defs,
    scope: &mut Scope<'a>,
    turns: &Loop<'a>,
    tree: &Tree<'a>,
) -> Result<Looping, Memory>
    requires readable { IsLoopReadable (map declaration_of turns.now.vars.items) (turn_of turns.now) }
    requires scope { scope.old ≡ scope_of (map declaration_of turns.now.vars.items) }
    requires guard { tree_of tree.now ≡ guard_tree (map constraint_of turns.now.guard.items) }
    requires names { loop_fault (sets_of defs.now) (map declaration_of turns.now.vars.items) (turn_of turns.now) ≡ None }
    requires within { (full : Bool) × (loop_passed full (sets_of defs.now) (map declaration_of turns.now.vars.items) (turn_of turns.now) ≡ None) }
    ensures { IfOk result (IsBuiltLoop (sets_of defs.now) (map declaration_of turns.now.vars.items) (turn_of turns.now)) }
{
    let (matrix, shift) = match matrix_and_shift(alloc, scope, &turns.assignments) {
        Ok(parts) => parts,
        Err(error) => return Err(error),
    };
    let guard = match core_formula(alloc, defs, scope, tree) {
        Ok(guard) => guard,
        Err(error) => return Err(error),
    };
    match loop_vars(alloc, &turns.vars) {
        Ok(vars) => Ok(Looping {
            vars,
            body: LoopBody {
                matrix,
                shift,
                guard,
            },
        }),
        Err(error) => Err(error),
    }
}
