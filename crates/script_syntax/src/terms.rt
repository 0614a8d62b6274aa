//! Reading terms.

ghost use Rattle.std.specs.Prelude.{◌≡◌, ◌≤◌, length, map};
ghost use Rattle.parser_laws.specs.Parsing.{res_map, perhaps, done, both, starts_with};
ghost use Rattle.script_tokens.specs.declared.kind.Kind.TheVariants as kind;
ghost use Rattle.script_grammar.specs.Views.{is, sign, name, number};
ghost use Rattle.script_grammar.specs.Terms.{scaled, part, term, terms, arguments, called, starts_term};
ghost use Rattle.script_syntax.specs.Reading.{Agrees};
ghost use Rattle.script_syntax.specs.Trees.{scaled_part, part_shape, named_of, terms_read, terms_shape, arguments_shape, closed_shape, called_shape, part_of, signed_of, parts_read, adding_at, term_shape, term_of, negated, without_place};

use crate::cursor::{Cursor, Stop};
use crate::tree::{NameAt, Part, Signed, Term};
use script_tokens::{Kind, Placed, Token};
use std::alloc::Global;

impl<'a> Cursor<'a> {
    // number [* name]
    pub(crate) fn scaled(&mut self) -> Result<Part<'a>, Stop>
        ensures answer { Agrees part_of (res_map scaled_part (scaled.parse self.old)) result self.old self.new }
        ensures onward { length self.new ≤ length self.old }
    {
        let factor = match self.token() {
            Some(
                Placed {
                    token: Token::Number(factor),
                    ..
                },
            ) => factor,
            _ => return Err(Stop::Syntax),
        };
        self.step();
        match self.token() {
            Some(
                Placed {
                    token: Token::Sign(Kind::Times),
                    ..
                },
            ) => {
                self.step();
                match self.name() {
                    Ok(name) => Ok(Part::Scaled(factor, name)),
                    Err(stop) => Err(stop),
                }
            }
            _ => Ok(Part::Constant(factor)),
        }
    }

    /// A name.
    ///
    /// # Errors
    /// `Syntax` where no name is in hand.
    pub fn name(&mut self) -> Result<NameAt<'a>, Stop>
        ensures answer { Agrees named_of (name.parse self.old) result self.old self.new }
        ensures onward { length self.new ≤ length self.old }
    {
        match self.token() {
            Some(
                Placed {
                    token: Token::Name(bytes),
                    place,
                },
            ) => {
                self.step();
                Ok(NameAt { bytes, place })
            }
            _ => Err(Stop::Syntax),
        }
    }

    // number [* name] | name
    pub(crate) fn part(&mut self) -> Result<Part<'a>, Stop>
        ensures answer { Agrees part_of (res_map part_shape (part.parse self.old)) result self.old self.new }
        ensures onward { length self.new ≤ length self.old }
    {
        match self.token() {
            Some(
                Placed {
                    token: Token::Number(_),
                    ..
                },
            ) => self.scaled(),
            _ => match self.name() {
                Ok(name) => Ok(Part::Variable(name)),
                Err(stop) => Err(stop),
            },
        }
    }

    // Whether the token in hand is a minus, where it is a plus or a minus.
    fn adding(&self) -> Option<bool>
        ensures { result ≡ adding_at self.now }
    {
        match self.token() {
            Some(
                Placed {
                    token: Token::Sign(Kind::Plus),
                    ..
                },
            ) => Some(false),
            Some(
                Placed {
                    token: Token::Sign(Kind::Minus),
                    ..
                },
            ) => Some(true),
            _ => None,
        }
    }

    // { (+ | -) part }, behind the parts that were read.
    pub(crate) fn more_parts(&mut self, first: Vec<Signed<'a>>) -> Result<Vec<Signed<'a>>, Stop>
        ensures answer { Agrees (λ v. map signed_of v.items) (parts_read (length self.old) (map signed_of first.entry.items) self.old) result self.old self.new }
        ensures onward { length self.new ≤ length self.old }
    {
        let mut parts = first;
        while let Some(minus) = self.adding() {
            self.step();
            let part = match self.part() {
                Ok(part) => part,
                Err(stop) => return Err(stop),
            };
            match parts.push(Signed { minus, part }) {
                Ok(()) => {}
                Err(_) => return Err(Stop::Memory),
            }
        }
        Ok(parts)
    }

    /// A number that is not scaled.
    ///
    /// # Errors
    /// `Syntax` where no number is in hand.
    pub fn number(&mut self) -> Result<u128, Stop>
        ensures answer { Agrees (λ n. n) (res_map without_place (number.parse self.old)) result self.old self.new }
        ensures onward { length self.new ≤ length self.old }
    {
        match self.token() {
            Some(
                Placed {
                    token: Token::Number(number),
                    ..
                },
            ) => {
                self.step();
                Ok(number)
            }
            _ => Err(Stop::Syntax),
        }
    }

    /// A term, `[-] part { (+ | -) part }`.
    ///
    /// # Errors
    /// `Syntax` at the token with which no term goes on, and `Memory`.
    pub fn term(&mut self, alloc: Global) -> Result<Term<'a>, Stop>
        ensures answer { Agrees term_of (res_map term_shape (term.parse self.old)) result self.old self.new }
        ensures onward { length self.new ≤ length self.old }
    {
        let minus = self.minus();
        let part = match self.part() {
            Ok(part) => part,
            Err(stop) => return Err(stop),
        };
        let mut parts = Vec::new(alloc);
        match parts.push(Signed { minus, part }) {
            Ok(()) => {}
            Err(_) => return Err(Stop::Memory),
        }
        match self.more_parts(parts) {
            Ok(parts) => Ok(Term { parts }),
            Err(stop) => Err(stop),
        }
    }

    /// Takes a minus, if it is in hand, and tells whether it was.
    pub fn minus(&mut self) -> bool
        ensures answer { res_map negated ((perhaps (is kind.Minus) (sign kind.Minus)).parse self.old) ≡ done result self.new }
        ensures onward { length self.new ≤ length self.old }
    {
        match self.token() {
            Some(
                Placed {
                    token: Token::Sign(Kind::Minus),
                    ..
                },
            ) => {
                self.step();
                true
            }
            _ => false,
        }
    }

    // { , term }, behind the terms that were read.
    fn more_terms(&mut self, alloc: Global, first: Vec<Term<'a>>) -> Result<Vec<Term<'a>>, Stop>
        ensures answer { Agrees (λ v. map term_of v.items) (terms_read (length self.old) (map term_of first.entry.items) self.old) result self.old self.new }
        ensures onward { length self.new ≤ length self.old }
    {
        let mut terms = first;
        while self.is_at(Kind::Comma) {
            self.step();
            let term = match self.term(alloc) {
                Ok(term) => term,
                Err(stop) => return Err(stop),
            };
            match terms.push(term) {
                Ok(()) => {}
                Err(_) => return Err(Stop::Memory),
            }
        }
        Ok(terms)
    }

    // term { , term }
    fn terms(&mut self, alloc: Global) -> Result<Vec<Term<'a>>, Stop>
        ensures answer { Agrees (λ v. map term_of v.items) (res_map terms_shape (terms.parse self.old)) result self.old self.new }
        ensures onward { length self.new ≤ length self.old }
    {
        let term = match self.term(alloc) {
            Ok(term) => term,
            Err(stop) => return Err(stop),
        };
        let mut terms = Vec::new(alloc);
        match terms.push(term) {
            Ok(()) => {}
            Err(_) => return Err(Stop::Memory),
        }
        self.more_terms(alloc, terms)
    }

    // Whether a term begins with the token in hand.
    fn starts_term(&self) -> bool
        ensures { result ≡ starts_with starts_term self.now }
    {
        match self.token() {
            Some(
                Placed {
                    token: Token::Sign(Kind::Minus),
                    ..
                },
            ) => true,
            Some(
                Placed {
                    token: Token::Number(_),
                    ..
                },
            ) => true,
            Some(
                Placed {
                    token: Token::Name(_),
                    ..
                },
            ) => true,
            _ => false,
        }
    }

    // [ term { , term } ]
    fn arguments(&mut self, alloc: Global) -> Result<Vec<Term<'a>>, Stop>
        ensures answer { Agrees (λ v. map term_of v.items) (res_map arguments_shape (arguments.parse self.old)) result self.old self.new }
        ensures onward { length self.new ≤ length self.old }
    {
        if self.starts_term() {
            self.terms(alloc)
        } else {
            Ok(Vec::new(alloc))
        }
    }

    // arguments )
    fn closed_arguments(&mut self, alloc: Global) -> Result<Vec<Term<'a>>, Stop>
        ensures answer { Agrees (λ v. map term_of v.items) (res_map closed_shape ((both arguments (sign kind.Close)).parse self.old)) result self.old self.new }
        ensures onward { length self.new ≤ length self.old }
    {
        let terms = match self.arguments(alloc) {
            Ok(terms) => terms,
            Err(stop) => return Err(stop),
        };
        match self.expect(Kind::Close) {
            Ok(()) => Ok(terms),
            Err(stop) => Err(stop),
        }
    }

    // ( arguments )
    pub(crate) fn called(&mut self, alloc: Global) -> Result<Vec<Term<'a>>, Stop>
        ensures answer { Agrees (λ v. map term_of v.items) (res_map called_shape (called.parse self.old)) result self.old self.new }
        ensures onward { length self.new ≤ length self.old }
    {
        match self.expect(Kind::Open) {
            Ok(()) => self.closed_arguments(alloc),
            Err(stop) => Err(stop),
        }
    }
}
