//! Reading formulas (recursive descent by levels). Each `not`, parenthesis and quantifier goes one group deeper, so the recursion is as
//! deep as the nesting that is allowed; lists of `and` and `or` are loops.

ghost use Rattle.std.specs.Prelude.{◌≡◌, ◌≤◌, length};
ghost use Rattle.parser_laws.specs.Parsing.{res_map};
ghost use Rattle.script_grammar.specs.Views.{quantifier_view};
ghost use Rattle.script_grammar.specs.Formulas.{room, form_lang, iff_lang, imp_lang, or_lang, and_lang, unary_lang};
ghost use Rattle.script_syntax.specs.Reading.{Agrees, IsMade, view_at};
ghost use Rattle.script_syntax.specs.Trees.{And, Equivalent, Implies, Not, Or, Quantified, and_shape, declaration_of, form_shape, iff_shape, imp_shape, or_shape, ands_read, quantifier_of, quantifier_shown, tree_of, unary_shape, units_read};
ghost use Rattle.std.specs.Prelude.{map};

use crate::cursor::{Cursor, Stop};
use crate::tree::{Declaration, Quantifier, Tree};
use script_tokens::{Kind, Placed, Token};
use std::alloc::Global;

impl<'a> Cursor<'a> {
    // The quantifier in hand, if there is one.
    fn quantifier_in_hand(&self) -> Option<Quantifier>
        ensures { quantifier_shown result ≡ view_at quantifier_view self.now }
    {
        match self.token() {
            Some(
                Placed {
                    token: Token::Sign(Kind::Exists),
                    ..
                },
            ) => Some(Quantifier::Exists),
            Some(
                Placed {
                    token: Token::Sign(Kind::Forall),
                    ..
                },
            ) => Some(Quantifier::Forall),
            _ => None,
        }
    }

    /// A formula with no more than `depth` open groups at any place.
    ///
    /// # Errors
    /// `Syntax` at the token with which no formula goes on, `Nesting` at the token that opens one group too many, and `Memory`.
    #[cycle(formula)]
    pub fn formula(&mut self, alloc: Global, depth: u32) -> Result<Tree<'a>, Stop>
        ensures answer { Agrees tree_of (res_map form_shape ((form_lang (room depth) 0).parse self.old)) result self.old self.new }
        ensures onward { length self.new ≤ length self.old }
    {
        let quantifier = match self.quantifier_in_hand() {
            Some(quantifier) => quantifier,
            None => return self.iff(alloc, depth),
        };
        if depth == 0 {
            return Err(Stop::Nesting);
        }
        self.step();
        let declarations = match self.declarations(alloc) {
            Ok(declarations) => declarations,
            Err(stop) => return Err(stop),
        };
        match self.expect(Kind::Colon) {
            Ok(()) => {}
            Err(stop) => return Err(stop),
        }
        match self.formula(alloc, depth - 1) {
            Ok(inner) => quantified(alloc, quantifier, declarations, inner),
            Err(stop) => Err(stop),
        }
    }

    // imp [ <-> imp ]
    #[cycle(formula)]
    fn iff(&mut self, alloc: Global, depth: u32) -> Result<Tree<'a>, Stop>
        ensures answer { Agrees tree_of (res_map iff_shape ((iff_lang (room depth) 0).parse self.old)) result self.old self.new }
        ensures onward { length self.new ≤ length self.old }
    {
        let left = match self.imp(alloc, depth) {
            Ok(left) => left,
            Err(stop) => return Err(stop),
        };
        if !self.is_at(Kind::Equivalent) {
            return Ok(left);
        }
        self.step();
        match self.imp(alloc, depth) {
            Ok(right) => equivalence(alloc, left, right),
            Err(stop) => Err(stop),
        }
    }

    // or [ -> or ]
    #[cycle(formula)]
    fn imp(&mut self, alloc: Global, depth: u32) -> Result<Tree<'a>, Stop>
        ensures answer { Agrees tree_of (res_map imp_shape ((imp_lang (room depth) 0).parse self.old)) result self.old self.new }
        ensures onward { length self.new ≤ length self.old }
    {
        let left = match self.or(alloc, depth) {
            Ok(left) => left,
            Err(stop) => return Err(stop),
        };
        if !self.is_at(Kind::Implies) {
            return Ok(left);
        }
        self.step();
        match self.or(alloc, depth) {
            Ok(right) => implication(alloc, left, right),
            Err(stop) => Err(stop),
        }
    }

    // and { or and }
    #[cycle(formula)]
    fn or(&mut self, alloc: Global, depth: u32) -> Result<Tree<'a>, Stop>
        ensures answer { Agrees tree_of (res_map or_shape ((or_lang (room depth) 0).parse self.old)) result self.old self.new }
        ensures onward { length self.new ≤ length self.old }
    {
        match self.and(alloc, depth) {
            Ok(first) => self.more_ands(alloc, depth, first),
            Err(stop) => Err(stop),
        }
    }

    // { or and }, behind what was read.
    #[cycle(formula)]
    fn more_ands(&mut self, alloc: Global, depth: u32, first: Tree<'a>) -> Result<Tree<'a>, Stop>
        ensures answer { Agrees tree_of (ands_read (room depth) (length self.old) (tree_of first.entry) self.old) result self.old self.new }
        ensures onward { length self.new ≤ length self.old }
    {
        let mut tree = first;
        while self.is_at(Kind::Or) {
            self.step();
            let next = match self.and(alloc, depth) {
                Ok(next) => next,
                Err(stop) => return Err(stop),
            };
            tree = match disjunction(alloc, tree, next) {
                Ok(both) => both,
                Err(stop) => return Err(stop),
            };
        }
        Ok(tree)
    }

    // unary { and unary }
    #[cycle(formula)]
    fn and(&mut self, alloc: Global, depth: u32) -> Result<Tree<'a>, Stop>
        ensures answer { Agrees tree_of (res_map and_shape ((and_lang (room depth) 0).parse self.old)) result self.old self.new }
        ensures onward { length self.new ≤ length self.old }
    {
        match self.unary(alloc, depth) {
            Ok(first) => self.more_units(alloc, depth, first),
            Err(stop) => Err(stop),
        }
    }

    // { and unary }, behind what was read.
    #[cycle(formula)]
    fn more_units(&mut self, alloc: Global, depth: u32, first: Tree<'a>) -> Result<Tree<'a>, Stop>
        ensures answer { Agrees tree_of (units_read (room depth) (length self.old) (tree_of first.entry) self.old) result self.old self.new }
        ensures onward { length self.new ≤ length self.old }
    {
        let mut tree = first;
        while self.is_at(Kind::And) {
            self.step();
            let next = match self.unary(alloc, depth) {
                Ok(next) => next,
                Err(stop) => return Err(stop),
            };
            tree = match conjunction(alloc, tree, next) {
                Ok(both) => both,
                Err(stop) => return Err(stop),
            };
        }
        Ok(tree)
    }

    // not unary | ( formula ) | atom
    #[cycle(formula)]
    fn unary(&mut self, alloc: Global, depth: u32) -> Result<Tree<'a>, Stop>
        ensures answer { Agrees tree_of (res_map unary_shape ((unary_lang (room depth) 0).parse self.old)) result self.old self.new }
        ensures onward { length self.new ≤ length self.old }
    {
        if self.is_at(Kind::Not) {
            if depth == 0 {
                return Err(Stop::Nesting);
            }
            self.step();
            return match self.unary(alloc, depth - 1) {
                Ok(inner) => negation(alloc, inner),
                Err(stop) => Err(stop),
            };
        }
        if !self.is_at(Kind::Open) {
            return self.atom(alloc);
        }
        if depth == 0 {
            return Err(Stop::Nesting);
        }
        self.step();
        let inner = match self.formula(alloc, depth - 1) {
            Ok(inner) => inner,
            Err(stop) => return Err(stop),
        };
        match self.expect(Kind::Close) {
            Ok(()) => Ok(inner),
            Err(stop) => Err(stop),
        }
    }
}

fn boxed<'a>(alloc: Global, tree: Tree<'a>) -> Result<Box<Tree<'a>>, Stop>
    ensures { IsMade (λ b. tree_of b.value) (tree_of tree.entry) result }
{
    match Box::new(alloc, tree) {
        Ok(tree) => Ok(tree),
        Err(_) => Err(Stop::Memory),
    }
}

fn negation<'a>(alloc: Global, inner: Tree<'a>) -> Result<Tree<'a>, Stop>
    ensures { IsMade tree_of (Not (tree_of inner.entry)) result }
{
    match boxed(alloc, inner) {
        Ok(inner) => Ok(Tree::Not(inner)),
        Err(stop) => Err(stop),
    }
}

fn conjunction<'a>(alloc: Global, left: Tree<'a>, right: Tree<'a>) -> Result<Tree<'a>, Stop>
    ensures { IsMade tree_of (And (tree_of left.entry) (tree_of right.entry)) result }
{
    match (boxed(alloc, left), boxed(alloc, right)) {
        (Ok(left), Ok(right)) => Ok(Tree::And(left, right)),
        _ => Err(Stop::Memory),
    }
}

fn disjunction<'a>(alloc: Global, left: Tree<'a>, right: Tree<'a>) -> Result<Tree<'a>, Stop>
    ensures { IsMade tree_of (Or (tree_of left.entry) (tree_of right.entry)) result }
{
    match (boxed(alloc, left), boxed(alloc, right)) {
        (Ok(left), Ok(right)) => Ok(Tree::Or(left, right)),
        _ => Err(Stop::Memory),
    }
}

fn implication<'a>(alloc: Global, left: Tree<'a>, right: Tree<'a>) -> Result<Tree<'a>, Stop>
    ensures { IsMade tree_of (Implies (tree_of left.entry) (tree_of right.entry)) result }
{
    match (boxed(alloc, left), boxed(alloc, right)) {
        (Ok(left), Ok(right)) => Ok(Tree::Implies(left, right)),
        _ => Err(Stop::Memory),
    }
}

fn equivalence<'a>(alloc: Global, left: Tree<'a>, right: Tree<'a>) -> Result<Tree<'a>, Stop>
    ensures { IsMade tree_of (Equivalent (tree_of left.entry) (tree_of right.entry)) result }
{
    match (boxed(alloc, left), boxed(alloc, right)) {
        (Ok(left), Ok(right)) => Ok(Tree::Equivalent(left, right)),
        _ => Err(Stop::Memory),
    }
}

fn quantified<'a>(
    alloc: Global,
    quantifier: Quantifier,
    declarations: Vec<Declaration<'a>>,
    inner: Tree<'a>,
) -> Result<Tree<'a>, Stop>
    ensures { IsMade tree_of (Quantified (quantifier_of quantifier) (map declaration_of declarations.entry.items) (tree_of inner.entry)) result }
{
    match boxed(alloc, inner) {
        Ok(inner) => Ok(Tree::Quantified(quantifier, declarations, inner)),
        Err(stop) => Err(stop),
    }
}
