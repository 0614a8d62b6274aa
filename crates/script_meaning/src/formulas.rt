//! Core formulas of trees. The tree is inside the limit of depth, as the caller has judged, so the recursion is no deeper than that.

ghost use Rattle.std.specs.Prelude.{◌≡◌, ◌≤◌, ◌+◌, false, IfOk, length, map};
ghost use Rattle.script_names.specs.Kept.{sets_of};
ghost use Rattle.script_meaning.specs.Core.{compared_atom, claimed, bound, bound_all, core, truth as truth_of};
ghost use Rattle.script_meaning.specs.Limits.{literal_passes, size_of, term_passes, terms_limit};
ghost use Rattle.formula_core.specs.Shape.{formula_of};
ghost use Rattle.formula_core.specs.Variables.{sort_of};
ghost use Rattle.lash_model.specs.Formulas as model;
ghost use Rattle.script_syntax.specs.Trees.{declaration_of, quantifier_of, relation_of, term_of, tree_of};

use crate::calls::call_formula;
use crate::terms::difference;
use formula_core::{Formula, Linear, Sort};
use lash_io::Memory;
use script_names::{Defs, Scope, declare_all};
use script_syntax::{Declaration, Quantifier, Relation, Term, Tree};
use std::alloc::Global;

/// The atom of a comparison.
pub fn comparison_atom(
    alloc: Global,
    scope: &Scope<'_>,
    left: &Term<'_>,
    relation: Relation,
    right: &Term<'_>,
) -> Result<Linear, Memory>
    requires scope { length scope.now ≤ terms_limit }
    requires left_literals { term_passes (term_of left.now) ≡ false }
    requires left_count { length left.now.parts.items ≤ terms_limit }
    requires right_literals { term_passes (term_of right.now) ≡ false }
    requires right_count { length right.now.parts.items ≤ terms_limit }
    ensures { IfOk result (λ a. a ≡ compared_atom scope.now (term_of left.now) (relation_of relation) (term_of right.now)) }
{
    match relation {
        Relation::AtMost | Relation::Above | Relation::Equal | Relation::Unequal => difference(
            alloc, scope, left, right,
        ),
        Relation::AtLeast | Relation::Below => difference(alloc, scope, right, left),
    }
}

fn boxed(alloc: Global, formula: Formula) -> Result<Box<Formula>, Memory>
    ensures { IfOk result (λ b. formula_of b.value ≡ formula_of formula) }
{
    match Box::new(alloc, formula) {
        Ok(formula) => Ok(formula),
        Err(_) => Err(Memory),
    }
}

/// The negation of a formula.
pub fn negation(alloc: Global, inner: Formula) -> Result<Formula, Memory>
    ensures { IfOk result (λ f. formula_of f ≡ model.Not (formula_of inner)) }
{
    match boxed(alloc, inner) {
        Ok(inner) => Ok(Formula::Not(inner)),
        Err(error) => Err(error),
    }
}

fn conjunction(alloc: Global, left: Formula, right: Formula) -> Result<Formula, Memory>
    ensures { IfOk result (λ f. formula_of f ≡ model.And (formula_of left) (formula_of right)) }
{
    match (boxed(alloc, left), boxed(alloc, right)) {
        (Ok(left), Ok(right)) => Ok(Formula::And(left, right)),
        _ => Err(Memory),
    }
}

fn disjunction(alloc: Global, left: Formula, right: Formula) -> Result<Formula, Memory>
    ensures { IfOk result (λ f. formula_of f ≡ model.Or (formula_of left) (formula_of right)) }
{
    match (boxed(alloc, left), boxed(alloc, right)) {
        (Ok(left), Ok(right)) => Ok(Formula::Or(left, right)),
        _ => Err(Memory),
    }
}

fn implication(alloc: Global, left: Formula, right: Formula) -> Result<Formula, Memory>
    ensures { IfOk result (λ f. formula_of f ≡ model.Or (model.Not (formula_of left)) (formula_of right)) }
{
    match negation(alloc, left) {
        Ok(left) => disjunction(alloc, left, right),
        Err(error) => Err(error),
    }
}

fn existence(alloc: Global, sort: Sort, inner: Formula) -> Result<Formula, Memory>
    ensures { IfOk result (λ f. formula_of f ≡ model.Exists (sort_of sort) (formula_of inner)) }
{
    match boxed(alloc, inner) {
        Ok(inner) => Ok(Formula::Exists(sort, inner)),
        Err(error) => Err(error),
    }
}

// The formula of a comparison whose atom is given.
fn claim(alloc: Global, relation: Relation, atom: Linear) -> Result<Formula, Memory>
    ensures { IfOk result (λ f. formula_of f ≡ claimed (relation_of relation) atom) }
{
    match relation {
        Relation::AtMost | Relation::AtLeast => Ok(Formula::Le(atom)),
        Relation::Below | Relation::Above => negation(alloc, Formula::Le(atom)),
        Relation::Equal => Ok(Formula::Eq(atom)),
        Relation::Unequal => negation(alloc, Formula::Eq(atom)),
    }
}

/// An atom that always holds, or one that never does.
pub fn truth(alloc: Global, value: bool) -> Formula
    ensures { formula_of result ≡ truth_of value }
{
    if value {
        Formula::Le(Linear::new(alloc, 0))
    } else {
        Formula::Le(Linear::new(alloc, -1))
    }
}

// One variable bound.
fn binding(
    alloc: Global,
    quantifier: Quantifier,
    sort: Sort,
    body: Formula,
) -> Result<Formula, Memory>
    ensures { IfOk result (λ f. formula_of f ≡ bound (quantifier_of quantifier) (sort_of sort) (formula_of body)) }
{
    match quantifier {
        Quantifier::Exists => existence(alloc, sort, body),
        Quantifier::Forall => {
            let inner = match negation(alloc, body) {
                Ok(inner) => inner,
                Err(error) => return Err(error),
            };
            match existence(alloc, sort, inner) {
                Ok(some) => negation(alloc, some),
                Err(error) => Err(error),
            }
        }
    }
}

// All the variables bound, the first one outermost.
fn bindings(
    alloc: Global,
    quantifier: Quantifier,
    declarations: &[Declaration<'_>],
    body: Formula,
) -> Result<Formula, Memory>
    ensures { IfOk result (λ f. formula_of f ≡ bound_all (quantifier_of quantifier) (map declaration_of declarations.now) (formula_of body)) }
{
    match declarations.split_first() {
        Some((first, rest)) => match bindings(alloc, quantifier, rest, body) {
            Ok(inner) => binding(alloc, quantifier, first.sort, inner),
            Err(error) => Err(error),
        },
        None => Ok(body),
    }
}

/// The core formula of a tree whose names are in scope. No number passes the limit of literals, and there are at most 65,536 variables in
/// scope and parts of terms together, as conditions. The scope is afterwards as it was. Only want of memory is refused.
#[cycle(formulas)]
pub fn core_formula<'a>(
    alloc: Global,
    defs: &Defs,
    scope: &mut Scope<'a>,
    tree: &Tree<'a>,
) -> Result<Formula, Memory>
    requires literals { literal_passes (tree_of tree.now) ≡ false }
    requires size { length scope.old + size_of (tree_of tree.now) ≤ terms_limit }
    ensures core { IfOk result (λ f. formula_of f ≡ core (sets_of defs.now) scope.old (tree_of tree.now)) }
    ensures scope { scope.new ≡ scope.old }
{
    match tree {
        Tree::Truth(value) => Ok(truth(alloc, *value)),
        Tree::Compare(left, relation, right) => {
            match comparison_atom(alloc, scope, left, *relation, right) {
                Ok(atom) => claim(alloc, *relation, atom),
                Err(error) => Err(error),
            }
        }
        Tree::Call(name, terms) => call_formula(alloc, defs, scope, name, terms),
        Tree::Not(inner) => match core_formula(alloc, defs, scope, inner) {
            Ok(inner) => negation(alloc, inner),
            Err(error) => Err(error),
        },
        Tree::And(left, right) => match core_pair(alloc, defs, scope, left, right) {
            Ok((left, right)) => conjunction(alloc, left, right),
            Err(error) => Err(error),
        },
        Tree::Or(left, right) => match core_pair(alloc, defs, scope, left, right) {
            Ok((left, right)) => disjunction(alloc, left, right),
            Err(error) => Err(error),
        },
        Tree::Implies(left, right) => core_implication(alloc, defs, scope, left, right),
        Tree::Equivalent(left, right) => {
            let there = match core_implication(alloc, defs, scope, left, right) {
                Ok(there) => there,
                Err(error) => return Err(error),
            };
            match core_implication(alloc, defs, scope, right, left) {
                Ok(back) => conjunction(alloc, there, back),
                Err(error) => Err(error),
            }
        }
        Tree::Quantified(quantifier, declarations, inner) => {
            let count = scope.len();
            // The names were judged before, so only memory can be wanting.
            let body = match declare_all(scope, declarations) {
                Ok(()) => core_formula(alloc, defs, scope, inner),
                Err(_) => Err(Memory),
            };
            scope.leave(count);
            match body {
                Ok(body) => bindings(alloc, *quantifier, declarations, body),
                Err(error) => Err(error),
            }
        }
    }
}

#[cycle(formulas)]
fn core_pair<'a>(
    alloc: Global,
    defs: &Defs,
    scope: &mut Scope<'a>,
    left: &Tree<'a>,
    right: &Tree<'a>,
) -> Result<(Formula, Formula), Memory>
    requires left_literals { literal_passes (tree_of left.now) ≡ false }
    requires right_literals { literal_passes (tree_of right.now) ≡ false }
    requires size { length scope.old + (size_of (tree_of left.now) + size_of (tree_of right.now)) ≤ terms_limit }
    ensures left { IfOk result (λ p. formula_of p.0 ≡ core (sets_of defs.now) scope.old (tree_of left.now)) }
    ensures right { IfOk result (λ p. formula_of p.1 ≡ core (sets_of defs.now) scope.old (tree_of right.now)) }
    ensures scope { scope.new ≡ scope.old }
{
    let left = match core_formula(alloc, defs, scope, left) {
        Ok(left) => left,
        Err(error) => return Err(error),
    };
    match core_formula(alloc, defs, scope, right) {
        Ok(right) => Ok((left, right)),
        Err(error) => Err(error),
    }
}

#[cycle(formulas)]
fn core_implication<'a>(
    alloc: Global,
    defs: &Defs,
    scope: &mut Scope<'a>,
    left: &Tree<'a>,
    right: &Tree<'a>,
) -> Result<Formula, Memory>
    requires left_literals { literal_passes (tree_of left.now) ≡ false }
    requires right_literals { literal_passes (tree_of right.now) ≡ false }
    requires size { length scope.old + (size_of (tree_of left.now) + size_of (tree_of right.now)) ≤ terms_limit }
    ensures core { IfOk result (λ f. formula_of f ≡ model.Or (model.Not (core (sets_of defs.now) scope.old (tree_of left.now))) (core (sets_of defs.now) scope.old (tree_of right.now))) }
    ensures scope { scope.new ≡ scope.old }
{
    match core_pair(alloc, defs, scope, left, right) {
        Ok((left, right)) => implication(alloc, left, right),
        Err(error) => Err(error),
    }
}
