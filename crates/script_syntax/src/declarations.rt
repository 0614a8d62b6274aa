//! Reading declarations and headers.

ghost use Rattle.std.specs.Prelude.{◌≡◌, ◌≤◌, length, map};
ghost use Rattle.parser_laws.specs.Parsing.{res_map, both, perhaps};
ghost use Rattle.script_tokens.specs.declared.kind.Kind.TheVariants as kind;
ghost use Rattle.formula_core.specs.Variables.{sort_of};
ghost use Rattle.script_grammar.specs.Views.{is_name, sign, sort, sort_view};
ghost use Rattle.script_grammar.specs.Terms.{declaration, declarations};
ghost use Rattle.script_grammar.specs.Statements.{header};
ghost use Rattle.script_syntax.specs.Reading.{Agrees, view_at};
ghost use Rattle.script_syntax.specs.Trees.{sort_shown, without_place, declaration_of, declaration_shape, declarations_shape, declarations_read, perhaps_declared, closed_declared, header_shape};

use crate::cursor::{Cursor, Stop};
use crate::tree::Declaration;
use formula_core::Sort;
use script_tokens::{Kind, Placed, Token};
use std::alloc::Global;

impl<'a> Cursor<'a> {
    // The sort in hand, if there is one.
    fn sort_in_hand(&self) -> Option<Sort>
        ensures { sort_shown result ≡ view_at sort_view self.now }
    {
        match self.token() {
            Some(
                Placed {
                    token: Token::Sign(Kind::Int),
                    ..
                },
            ) => Some(Sort::Int),
            Some(
                Placed {
                    token: Token::Sign(Kind::Real),
                    ..
                },
            ) => Some(Sort::Real),
            _ => None,
        }
    }

    // A sort.
    fn sort(&mut self) -> Result<Sort, Stop>
        ensures answer { Agrees sort_of (res_map without_place (sort.parse self.old)) result self.old self.new }
        ensures onward { length self.new ≤ length self.old }
    {
        match self.sort_in_hand() {
            Some(sort) => {
                self.step();
                Ok(sort)
            }
            None => Err(Stop::Syntax),
        }
    }

    // name sort
    fn declaration(&mut self) -> Result<Declaration<'a>, Stop>
        ensures answer { Agrees declaration_of (res_map declaration_shape (declaration.parse self.old)) result self.old self.new }
        ensures onward { length self.new ≤ length self.old }
    {
        let name = match self.name() {
            Ok(name) => name,
            Err(stop) => return Err(stop),
        };
        match self.sort() {
            Ok(sort) => Ok(Declaration { name, sort }),
            Err(stop) => Err(stop),
        }
    }

    // { , declaration }, behind the declarations that were read.
    fn more_declarations(
        &mut self,
        first: Vec<Declaration<'a>>,
    ) -> Result<Vec<Declaration<'a>>, Stop>
        ensures answer { Agrees (λ v. map declaration_of v.items) (declarations_read (length self.old) (map declaration_of first.entry.items) self.old) result self.old self.new }
        ensures onward { length self.new ≤ length self.old }
    {
        let mut declarations = first;
        while self.is_at(Kind::Comma) {
            self.step();
            let declaration = match self.declaration() {
                Ok(declaration) => declaration,
                Err(stop) => return Err(stop),
            };
            match declarations.push(declaration) {
                Ok(()) => {}
                Err(_) => return Err(Stop::Memory),
            }
        }
        Ok(declarations)
    }

    /// Declarations, `name sort { , name sort }`.
    ///
    /// # Errors
    /// `Syntax` at the token with which no declarations go on, and `Memory`.
    pub fn declarations(&mut self, alloc: Global) -> Result<Vec<Declaration<'a>>, Stop>
        ensures answer { Agrees (λ v. map declaration_of v.items) (res_map declarations_shape (declarations.parse self.old)) result self.old self.new }
        ensures onward { length self.new ≤ length self.old }
    {
        let declaration = match self.declaration() {
            Ok(declaration) => declaration,
            Err(stop) => return Err(stop),
        };
        let mut declarations = Vec::new(alloc);
        match declarations.push(declaration) {
            Ok(()) => {}
            Err(_) => return Err(Stop::Memory),
        }
        self.more_declarations(declarations)
    }

    // [ declarations ]
    fn perhaps_declarations(&mut self, alloc: Global) -> Result<Vec<Declaration<'a>>, Stop>
        ensures answer { Agrees (λ v. map declaration_of v.items) (res_map perhaps_declared ((perhaps is_name declarations).parse self.old)) result self.old self.new }
        ensures onward { length self.new ≤ length self.old }
    {
        if self.is_name() {
            self.declarations(alloc)
        } else {
            Ok(Vec::new(alloc))
        }
    }

    // [ declarations ] )
    fn closed_declarations(&mut self, alloc: Global) -> Result<Vec<Declaration<'a>>, Stop>
        ensures answer { Agrees (λ v. map declaration_of v.items) (res_map closed_declared ((both (perhaps is_name declarations) (sign kind.Close)).parse self.old)) result self.old self.new }
        ensures onward { length self.new ≤ length self.old }
    {
        let declarations = match self.perhaps_declarations(alloc) {
            Ok(declarations) => declarations,
            Err(stop) => return Err(stop),
        };
        match self.expect(Kind::Close) {
            Ok(()) => Ok(declarations),
            Err(stop) => Err(stop),
        }
    }

    /// A header, `( [ declarations ] )`.
    ///
    /// # Errors
    /// `Syntax` at the token with which no header goes on, and `Memory`.
    pub fn header(&mut self, alloc: Global) -> Result<Vec<Declaration<'a>>, Stop>
        ensures answer { Agrees (λ v. map declaration_of v.items) (res_map header_shape (header.parse self.old)) result self.old self.new }
        ensures onward { length self.new ≤ length self.old }
    {
        match self.expect(Kind::Open) {
            Ok(()) => self.closed_declarations(alloc),
            Err(stop) => Err(stop),
        }
    }
}
