//! How many nodes the core formula of a tree will have, and how deep it will be, counted before it is built: each `<->` has both its parts
//! twice, so that the formula of a short script can be larger than any memory.

ghost use Rattle.std.specs.Prelude.{◌≡◌, ◌+◌, ◌*◌, ℕ, length, map, min};
ghost use Rattle.formula_core.specs.Counts.{nodes_of, depth_of, count_limit};
ghost use Rattle.script_meaning.specs.Core.{core};
ghost use Rattle.script_names.specs.Kept.{sets_of};
ghost use Rattle.script_names.specs.Scopes.{Scope};
ghost use Rattle.script_meaning.specs.Counts.{bound_nodes, compared_nodes};
ghost use Rattle.script_syntax.specs.Trees.{declaration_of, quantifier_of, relation_of, tree_of};

use crate::calls::{call_depth, call_nodes};
use script_names::Defs;
use script_syntax::{Declaration, Quantifier, Relation, Tree};

// The nodes or the depth that binding one variable adds.
fn binding(quantifier: Quantifier) -> u64
    ensures { result ≡ bound_nodes (quantifier_of quantifier) }
{
    match quantifier {
        Quantifier::Exists => 1,
        Quantifier::Forall => 3,
    }
}

// A count with that of so many bound variables.
fn with_bound(count: u64, quantifier: Quantifier, declarations: &[Declaration<'_>]) -> u64
    ensures { (exact : ℕ) → count ≡ min exact count_limit → result ≡ min (exact + bound_nodes (quantifier_of quantifier) * length (map declaration_of declarations.now)) count_limit }
{
    count.saturating_add(binding(quantifier).saturating_mul(declarations.len() as u64))
}

// The nodes or the depth of a comparison: a strict one and an unequal one are negated.
fn comparison(relation: Relation) -> u64
    ensures { result ≡ compared_nodes (relation_of relation) }
{
    match relation {
        Relation::AtMost | Relation::AtLeast | Relation::Equal => 1,
        Relation::Below | Relation::Above | Relation::Unequal => 2,
    }
}

/// How many nodes the core formula has, or 2^64 - 1 where there are more.
#[cycle(nodes)]
pub fn nodes(defs: &Defs, tree: &Tree<'_>) -> u64
    ensures { (scope : Scope) → result ≡ min (nodes_of (core (sets_of defs.now) scope (tree_of tree.now))) count_limit }
{
    let mut first = tree;
    let mut count: u64 = 0;
    while let Tree::And(left, right) | Tree::Or(left, right) = first {
        count = count.saturating_add(nodes(defs, right)).saturating_add(1);
        first = left;
    }
    unit_nodes(defs, first).saturating_add(count)
}

// The same of a formula that is no list of `and` or `or`.
#[cycle(nodes)]
fn unit_nodes(defs: &Defs, tree: &Tree<'_>) -> u64
    ensures { (scope : Scope) → result ≡ min (nodes_of (core (sets_of defs.now) scope (tree_of tree.now))) count_limit }
{
    match tree {
        Tree::Truth(_) => 1,
        Tree::Call(name, terms) => call_nodes(defs, name, terms),
        Tree::Compare(_, relation, _) => comparison(*relation),
        Tree::Not(inner) => nodes(defs, inner).saturating_add(1),
        Tree::And(left, right) | Tree::Or(left, right) => nodes(defs, left)
            .saturating_add(nodes(defs, right))
            .saturating_add(1),
        Tree::Implies(left, right) => nodes(defs, left)
            .saturating_add(nodes(defs, right))
            .saturating_add(2),
        Tree::Equivalent(left, right) => {
            let both = nodes(defs, left).saturating_add(nodes(defs, right));
            both.saturating_add(both).saturating_add(5)
        }
        Tree::Quantified(quantifier, declarations, inner) => with_bound(
            nodes(defs, inner),
            *quantifier,
            declarations,
        ),
    }
}

/// How many nodes the longest way down the core formula has, or 2^64 - 1 where there are more.
#[cycle(depth)]
pub fn depth(defs: &Defs, tree: &Tree<'_>) -> u64
    ensures { (scope : Scope) → result ≡ min (depth_of (core (sets_of defs.now) scope (tree_of tree.now))) count_limit }
{
    let mut first = tree;
    let mut above: u64 = 0;
    let mut deepest: u64 = 0;
    while let Tree::And(left, right) | Tree::Or(left, right) = first {
        above = above.saturating_add(1);
        deepest = deepest.max(depth(defs, right).saturating_add(above));
        first = left;
    }
    deepest.max(unit_depth(defs, first).saturating_add(above))
}

// The same of a formula that is no list of `and` or `or`.
#[cycle(depth)]
fn unit_depth(defs: &Defs, tree: &Tree<'_>) -> u64
    ensures { (scope : Scope) → result ≡ min (depth_of (core (sets_of defs.now) scope (tree_of tree.now))) count_limit }
{
    match tree {
        Tree::Truth(_) => 1,
        Tree::Call(name, terms) => call_depth(defs, name, terms),
        Tree::Compare(_, relation, _) => comparison(*relation),
        Tree::Not(inner) => depth(defs, inner).saturating_add(1),
        Tree::And(left, right) | Tree::Or(left, right) => depth(defs, left)
            .max(depth(defs, right))
            .saturating_add(1),
        Tree::Implies(left, right) => depth(defs, left)
            .saturating_add(1)
            .max(depth(defs, right))
            .saturating_add(1),
        Tree::Equivalent(left, right) => depth(defs, left)
            .max(depth(defs, right))
            .saturating_add(3),
        Tree::Quantified(quantifier, declarations, inner) => with_bound(
            depth(defs, inner),
            *quantifier,
            declarations,
        ),
    }
}
