//! Reading atoms: truth values, comparisons and calls.

ghost use Rattle.std.specs.Prelude.{◌≡◌, ◌≤◌, length};
ghost use Rattle.parser_laws.specs.Parsing.{res_map, both, either, starts_with, first};
ghost use Rattle.script_tokens.specs.declared.kind.Kind.TheVariants as kind;
ghost use Rattle.script_grammar.specs.Views.{is, is_name, sign, relation, relation_view, truth_view};
ghost use Rattle.script_grammar.specs.Terms.{part, scaled, term, called, compared, named, unnamed, atom};
ghost use Rattle.script_syntax.specs.Reading.{Agrees, view_at};
ghost use Rattle.script_syntax.specs.Trees.{signed_of, term_of, named_of, relation_of, relation_shown, without_place, tree_of, related_shape, compared_shape, named_shape, lead_shape, claim_shape, atom_shape};

use crate::cursor::{Cursor, Stop};
use crate::tree::{NameAt, Part, Relation, Signed, Term, Tree};
use script_tokens::{Kind, Placed, Token};
use std::alloc::Global;

impl<'a> Cursor<'a> {
    // The relation in hand, if there is one.
    fn relation_in_hand(&self) -> Option<Relation>
        ensures { relation_shown result ≡ view_at relation_view self.now }
    {
        match self.token() {
            Some(
                Placed {
                    token: Token::Sign(Kind::AtMost),
                    ..
                },
            ) => Some(Relation::AtMost),
            Some(
                Placed {
                    token: Token::Sign(Kind::Below),
                    ..
                },
            ) => Some(Relation::Below),
            Some(
                Placed {
                    token: Token::Sign(Kind::AtLeast),
                    ..
                },
            ) => Some(Relation::AtLeast),
            Some(
                Placed {
                    token: Token::Sign(Kind::Above),
                    ..
                },
            ) => Some(Relation::Above),
            Some(
                Placed {
                    token: Token::Sign(Kind::Equals),
                    ..
                },
            ) => Some(Relation::Equal),
            Some(
                Placed {
                    token: Token::Sign(Kind::Unequal),
                    ..
                },
            ) => Some(Relation::Unequal),
            _ => None,
        }
    }

    // The truth value in hand, if there is one.
    fn truth_in_hand(&self) -> Option<bool>
        ensures { result ≡ view_at truth_view self.now }
    {
        match self.token() {
            Some(
                Placed {
                    token: Token::Sign(Kind::True),
                    ..
                },
            ) => Some(true),
            Some(
                Placed {
                    token: Token::Sign(Kind::False),
                    ..
                },
            ) => Some(false),
            _ => None,
        }
    }

    // Whether a name is in hand.
    pub(crate) fn is_name(&self) -> bool
        ensures { result ≡ starts_with is_name self.now }
    {
        matches!(
            self.token(),
            Some(Placed {
                token: Token::Name(_),
                ..
            })
        )
    }

    // A relation.
    fn relation(&mut self) -> Result<Relation, Stop>
        ensures answer { Agrees relation_of (res_map without_place (relation.parse self.old)) result self.old self.new }
        ensures onward { length self.new ≤ length self.old }
    {
        match self.relation_in_hand() {
            Some(relation) => {
                self.step();
                Ok(relation)
            }
            None => Err(Stop::Syntax),
        }
    }

    // relation term, behind the left side.
    fn related(&mut self, alloc: Global, left: Term<'a>) -> Result<Tree<'a>, Stop>
        ensures answer { Agrees tree_of (res_map (related_shape (term_of left.entry)) ((both relation term).parse self.old)) result self.old self.new }
        ensures onward { length self.new ≤ length self.old }
    {
        let relation = match self.relation() {
            Ok(relation) => relation,
            Err(stop) => return Err(stop),
        };
        match self.term(alloc) {
            Ok(right) => Ok(Tree::Compare(left, relation, right)),
            Err(stop) => Err(stop),
        }
    }

    // The rest of a comparison, behind its first part.
    fn compared(&mut self, alloc: Global, first: Signed<'a>) -> Result<Tree<'a>, Stop>
        ensures answer { Agrees tree_of (res_map (compared_shape (signed_of first.entry)) (compared.parse self.old)) result self.old self.new }
        ensures onward { length self.new ≤ length self.old }
    {
        let mut parts = Vec::new(alloc);
        match parts.push(first) {
            Ok(()) => {}
            Err(_) => return Err(Stop::Memory),
        }
        match self.more_parts(parts) {
            Ok(parts) => self.related(alloc, Term { parts }),
            Err(stop) => Err(stop),
        }
    }

    // The rest of a call or a comparison, behind its name.
    fn named_rest(&mut self, alloc: Global, name: NameAt<'a>) -> Result<Tree<'a>, Stop>
        ensures answer { Agrees tree_of (res_map (named_shape (named_of name.entry)) ((either (is kind.Open) called compared).parse self.old)) result self.old self.new }
        ensures onward { length self.new ≤ length self.old }
    {
        if !self.is_at(Kind::Open) {
            let first = Signed {
                minus: false,
                part: Part::Variable(name),
            };
            return self.compared(alloc, first);
        }
        match self.called(alloc) {
            Ok(terms) => Ok(Tree::Call(name, terms)),
            Err(stop) => Err(stop),
        }
    }

    // A call or a comparison that begins with a name.
    fn named(&mut self, alloc: Global) -> Result<Tree<'a>, Stop>
        ensures answer { Agrees tree_of (res_map (λ x. named_shape x.left x.right) (named.parse self.old)) result self.old self.new }
        ensures onward { length self.new ≤ length self.old }
    {
        match self.name() {
            Ok(name) => self.named_rest(alloc, name),
            Err(stop) => Err(stop),
        }
    }

    // The first part of a comparison that does not begin with a name.
    fn lead(&mut self) -> Result<Signed<'a>, Stop>
        ensures answer { Agrees signed_of (res_map lead_shape ((either (is kind.Minus) (both (sign kind.Minus) part) scaled).parse self.old)) result self.old self.new }
        ensures onward { length self.new ≤ length self.old }
    {
        if self.is_at(Kind::Minus) {
            self.negated_part()
        } else {
            match self.scaled() {
                Ok(part) => Ok(Signed { minus: false, part }),
                Err(stop) => Err(stop),
            }
        }
    }

    // - part
    fn negated_part(&mut self) -> Result<Signed<'a>, Stop>
        ensures answer { Agrees signed_of (res_map (λ x. lead_shape (first x)) ((both (sign kind.Minus) part).parse self.old)) result self.old self.new }
        ensures onward { length self.new ≤ length self.old }
    {
        match self.expect(Kind::Minus) {
            Ok(()) => match self.part() {
                Ok(part) => Ok(Signed { minus: true, part }),
                Err(stop) => Err(stop),
            },
            Err(stop) => Err(stop),
        }
    }

    // A comparison that does not begin with a name.
    fn unnamed(&mut self, alloc: Global) -> Result<Tree<'a>, Stop>
        ensures answer { Agrees tree_of (res_map (λ x. compared_shape (lead_shape x.left) x.right) (unnamed.parse self.old)) result self.old self.new }
        ensures onward { length self.new ≤ length self.old }
    {
        match self.lead() {
            Ok(first) => self.compared(alloc, first),
            Err(stop) => Err(stop),
        }
    }

    // A call or a comparison.
    fn claim(&mut self, alloc: Global) -> Result<Tree<'a>, Stop>
        ensures answer { Agrees tree_of (res_map claim_shape ((either is_name named unnamed).parse self.old)) result self.old self.new }
        ensures onward { length self.new ≤ length self.old }
    {
        if self.is_name() {
            self.named(alloc)
        } else {
            self.unnamed(alloc)
        }
    }

    // A truth value, a call or a comparison.
    pub(crate) fn atom(&mut self, alloc: Global) -> Result<Tree<'a>, Stop>
        ensures answer { Agrees tree_of (res_map atom_shape (atom.parse self.old)) result self.old self.new }
        ensures onward { length self.new ≤ length self.old }
    {
        match self.truth_in_hand() {
            Some(value) => {
                self.step();
                Ok(Tree::Truth(value))
            }
            None => self.claim(alloc),
        }
    }
}
