//! Whether a number of a formula passes the limit of literals.

ghost use Rattle.std.specs.Prelude.{◌≡◌, map};
ghost use Rattle.script_meaning.specs.Limits.{literal_limit, part_passes, term_passes, terms_pass, literal_passes};
ghost use Rattle.script_syntax.specs.Trees.{part_of, term_of, tree_of};

use script_syntax::{Part, Term, Tree};

// The greatest number that a script may have.
const LITERAL_LIMIT: u128 = 1 << 64;

fn part_literal(part: &Part<'_>) -> bool
    ensures { result ≡ part_passes (part_of part.now) }
{
    match part {
        Part::Constant(number) | Part::Scaled(number, _) => *number > LITERAL_LIMIT,
        Part::Variable(_) => false,
    }
}

/// Whether some number of the term passes the limit of literals.
pub fn term_literal(term: &Term<'_>) -> bool
    ensures { result ≡ term_passes (term_of term.now) }
{
    for signed in &term.parts {
        if part_literal(&signed.part) {
            return true;
        }
    }
    false
}

fn terms_literal(terms: &[Term<'_>]) -> bool
    ensures { result ≡ terms_pass (map term_of terms.now) }
{
    for term in terms {
        if term_literal(term) {
            return true;
        }
    }
    false
}

/// Whether some number of the formula passes the limit of literals.
#[cycle(literals)]
pub fn has_great_literal(tree: &Tree<'_>) -> bool
    ensures { result ≡ literal_passes (tree_of tree.now) }
{
    let mut first = tree;
    while let Tree::And(left, right) | Tree::Or(left, right) = first {
        if has_great_literal(right) {
            return true;
        }
        first = left;
    }
    unit_literal(first)
}

// The same of a formula that is no list of `and` or `or`.
#[cycle(literals)]
fn unit_literal(tree: &Tree<'_>) -> bool
    ensures { result ≡ literal_passes (tree_of tree.now) }
{
    match tree {
        Tree::Truth(_) => false,
        Tree::Compare(left, _, right) => term_literal(left) || term_literal(right),
        Tree::Call(_, terms) => terms_literal(terms),
        Tree::Not(inner) | Tree::Quantified(_, _, inner) => has_great_literal(inner),
        Tree::And(left, right)
        | Tree::Or(left, right)
        | Tree::Implies(left, right)
        | Tree::Equivalent(left, right) => has_great_literal(left) || has_great_literal(right),
    }
}
