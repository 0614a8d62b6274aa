//! Whether atoms pass the limits of coefficients and constants. Each atom is made for a moment, from the tree, so that no formula is built
//! before all the limits were judged.

ghost use Rattle.std.specs.Prelude.{◌≡◌, ◌≤◌, ◌+◌, ◌^◌, false, IfOk, length, unsigned_abs};
ghost use Rattle.script_meaning.specs.Core.{core};
ghost use Rattle.script_meaning.specs.Limits.{literal_passes, size_of, terms_limit};
ghost use Rattle.term_substitution.specs.Passing.{AreAtomsJudged};
ghost use Rattle.script_names.specs.Kept.{sets_of};
ghost use Rattle.script_syntax.specs.Trees.{tree_of};

use crate::calls::call_atoms;
use crate::formulas::comparison_atom;
use lash_io::Memory;
use script_names::{Defs, Scope, declare_all};
use script_syntax::Tree;
use std::alloc::Global;
use term_substitution::Passed;

const NONE: Passed = Passed {
    coefficients: false,
    constant: false,
};

/// Which of the two limits some atom of the tree's core formula passes. The scope is afterwards as it was.
#[cycle(atoms)]
pub fn judge_atoms<'a>(
    alloc: Global,
    defs: &Defs,
    scope: &mut Scope<'a>,
    tree: &Tree<'a>,
) -> Result<Passed, Memory>
    requires literals { literal_passes (tree_of tree.now) ≡ false }
    requires size { length scope.old + size_of (tree_of tree.now) ≤ terms_limit }
    ensures judged { IfOk result (λ p. AreAtomsJudged p (core (sets_of defs.now) scope.old (tree_of tree.now))) }
    ensures scope { scope.new ≡ scope.old }
{
    let mut first = tree;
    let mut found = NONE;
    while let Tree::And(left, right) | Tree::Or(left, right) = first {
        match judge_atoms(alloc, defs, scope, right) {
            Ok(passed) => found = passed.or(found),
            Err(error) => return Err(error),
        }
        first = left;
    }
    match judge_unit(alloc, defs, scope, first) {
        Ok(passed) => Ok(passed.or(found)),
        Err(error) => Err(error),
    }
}

// The same of a formula that is no list of `and` or `or`.
#[cycle(atoms)]
fn judge_unit<'a>(
    alloc: Global,
    defs: &Defs,
    scope: &mut Scope<'a>,
    tree: &Tree<'a>,
) -> Result<Passed, Memory>
    requires literals { literal_passes (tree_of tree.now) ≡ false }
    requires size { length scope.old + size_of (tree_of tree.now) ≤ terms_limit }
    ensures judged { IfOk result (λ p. AreAtomsJudged p (core (sets_of defs.now) scope.old (tree_of tree.now))) }
    ensures scope { scope.new ≡ scope.old }
{
    match tree {
        Tree::Truth(_) => Ok(NONE),
        Tree::Call(name, terms) => call_atoms(alloc, defs, scope, name, terms),
        Tree::Compare(left, relation, right) => {
            match comparison_atom(alloc, scope, left, *relation, right) {
                Ok(atom) => Ok(Passed::of(&atom)),
                Err(error) => Err(error),
            }
        }
        Tree::Not(inner) => judge_atoms(alloc, defs, scope, inner),
        Tree::And(left, right)
        | Tree::Or(left, right)
        | Tree::Implies(left, right)
        | Tree::Equivalent(left, right) => {
            let one = match judge_atoms(alloc, defs, scope, left) {
                Ok(one) => one,
                Err(error) => return Err(error),
            };
            match judge_atoms(alloc, defs, scope, right) {
                Ok(other) => Ok(one.or(other)),
                Err(error) => Err(error),
            }
        }
        Tree::Quantified(_, declarations, inner) => {
            let count = scope.len();
            // The names were judged before, so only memory can be wanting.
            let answer = match declare_all(scope, declarations) {
                Ok(()) => judge_atoms(alloc, defs, scope, inner),
                Err(_) => Err(Memory),
            };
            scope.leave(count);
            answer
        }
    }
}
