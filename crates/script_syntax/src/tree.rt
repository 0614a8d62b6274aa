//! Trees of terms and formulas, with the places of the names in them.

use formula_core::Sort;

/// A name with the number of script bytes before it.
#[derive(Clone, Copy, Debug)]
pub struct NameAt<'a> {
    pub bytes: &'a [u8],
    pub place: u64,
}

/// A part of a term.
#[derive(Clone, Copy, Debug)]
pub enum Part<'a> {
    Constant(u128),
    Scaled(u128, NameAt<'a>),
    Variable(NameAt<'a>),
}

/// A part with its sign.
#[derive(Clone, Copy, Debug)]
pub struct Signed<'a> {
    pub minus: bool,
    pub part: Part<'a>,
}

/// A sum of parts.
#[derive(Debug, Drop)]
pub struct Term<'a> {
    pub parts: Vec<Signed<'a>>,
}

/// A relation between two terms.
#[derive(Clone, Copy, PartialEq, Eq, Debug)]
pub enum Relation {
    AtMost,
    Below,
    AtLeast,
    Above,
    Equal,
    Unequal,
}

/// The word of a quantified formula.
#[derive(Clone, Copy, PartialEq, Eq, Debug)]
pub enum Quantifier {
    Exists,
    Forall,
}

/// A name that is declared with its sort.
#[derive(Clone, Copy, Debug)]
pub struct Declaration<'a> {
    pub name: NameAt<'a>,
    pub sort: Sort,
}

/// A formula as it is written; parentheses are left out, and lists of `and` and `or` are nested to the left.
#[derive(Debug, Drop)]
pub enum Tree<'a> {
    Truth(bool),
    Compare(Term<'a>, Relation, Term<'a>),
    Call(NameAt<'a>, Vec<Term<'a>>),
    Not(Box<Tree<'a>>),
    And(Box<Tree<'a>>, Box<Tree<'a>>),
    Or(Box<Tree<'a>>, Box<Tree<'a>>),
    Implies(Box<Tree<'a>>, Box<Tree<'a>>),
    Equivalent(Box<Tree<'a>>, Box<Tree<'a>>),
    Quantified(Quantifier, Vec<Declaration<'a>>, Box<Tree<'a>>),
}
