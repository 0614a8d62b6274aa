//! The guard as the tree of a formula.

ghost use Rattle.std.specs.Prelude.{◌≡◌, IfOk, map};
ghost use Rattle.script_syntax.specs.Trees.{And, relation_of, term_of, tree_of};
ghost use Rattle.script_statements.specs.Loops.{bound_of, constraint_of};
ghost use Rattle.loop_meaning.specs.Guards.{constraint_tree, guard_tree, relation_of_bound};

use lash_io::Memory;
use script_statements::{Bound, Constraint};
use script_syntax::{Relation, Term, Tree};
use std::alloc::Global;

// The same term once more.
fn copied<'a>(alloc: Global, term: &Term<'a>) -> Result<Term<'a>, Memory>
    ensures { IfOk result (λ t. term_of t ≡ term_of term.now) }
{
    match Vec::from_slice(alloc, &term.parts) {
        Ok(parts) => Ok(Term { parts }),
        Err(_) => Err(Memory),
    }
}

fn relation(bound: Bound) -> Relation
    ensures { relation_of result ≡ relation_of_bound (bound_of bound) }
{
    match bound {
        Bound::AtMost => Relation::AtMost,
        Bound::Below => Relation::Below,
        Bound::AtLeast => Relation::AtLeast,
        Bound::Above => Relation::Above,
        Bound::Equal => Relation::Equal,
    }
}

// The comparison of a constraint.
fn comparison<'a>(alloc: Global, constraint: &Constraint<'a>) -> Result<Tree<'a>, Memory>
    ensures { IfOk result (λ t. tree_of t ≡ constraint_tree (constraint_of constraint.now)) }
{
    let left = match copied(alloc, &constraint.left) {
        Ok(left) => left,
        Err(error) => return Err(error),
    };
    match copied(alloc, &constraint.right) {
        Ok(right) => Ok(Tree::Compare(left, relation(constraint.bound), right)),
        Err(error) => Err(error),
    }
}

fn boxed<'a>(alloc: Global, tree: Tree<'a>) -> Result<Box<Tree<'a>>, Memory>
    ensures { IfOk result (λ b. tree_of b.value ≡ tree_of tree.entry) }
{
    match Box::new(alloc, tree) {
        Ok(tree) => Ok(tree),
        Err(_) => Err(Memory),
    }
}

// A formula and a constraint more.
fn joined<'a>(
    alloc: Global,
    tree: Tree<'a>,
    constraint: &Constraint<'a>,
) -> Result<Tree<'a>, Memory>
    ensures { IfOk result (λ t. tree_of t ≡ And (tree_of tree.entry) (constraint_tree (constraint_of constraint.now))) }
{
    let right = match comparison(alloc, constraint) {
        Ok(right) => right,
        Err(error) => return Err(error),
    };
    match (boxed(alloc, tree), boxed(alloc, right)) {
        (Ok(left), Ok(right)) => Ok(Tree::And(left, right)),
        _ => Err(Memory),
    }
}

/// The formula of a guard. Only want of memory is refused.
pub fn guard<'a>(alloc: Global, constraints: &[Constraint<'a>]) -> Result<Tree<'a>, Memory>
    ensures { IfOk result (λ t. tree_of t ≡ guard_tree (map constraint_of constraints.now)) }
{
    if constraints.is_empty() {
        return Ok(Tree::Truth(true));
    }
    let mut tree = match comparison(alloc, &constraints[0]) {
        Ok(tree) => tree,
        Err(error) => return Err(error),
    };
    for at in 1..constraints.len() {
        tree = match joined(alloc, tree, &constraints[at]) {
            Ok(tree) => tree,
            Err(error) => return Err(error),
        };
    }
    Ok(tree)
}
