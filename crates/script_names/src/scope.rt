//! The variables in scope, found by their names (a hash map that keeps its order).

ghost use Rattle.std.specs.Prelude.{◌≡◌, ◌<◌, ◌≤◌, ◌++◌, ◌∷◌, [], length, take, map, slice_get, IfSome, IfErr, OnOk, OnErr, None};
ghost use Rattle.std.specs.Option.{option_map};
ghost use Rattle.formula_core.specs.Variables.{sort_of};
ghost use Rattle.script_names.specs.Scopes.{place_of, sort_named, variable_of};
ghost use Rattle.script_names.specs.Faults.{repeated};
ghost use Rattle.script_names.specs.Answers.{IsChecked, IsDeclared};
ghost use Rattle.script_syntax.specs.Trees.{declaration_of, named_of};

use crate::names::{FaultAt, NameError, NameFault};
use formula_core::Sort;
use indexmap::IndexMap;
use script_syntax::Declaration;
use std::alloc::Global;
use std::marker::Model;

/// Names with their sorts, in the order in which they were declared.
#[derive(Drop)]
pub struct Scope<'a> {
    names: IndexMap<&'a [u8], Sort>,
}

impl<'a> Model for Scope<'a> {
    ghost use Rattle.std.specs.Prelude.{List, ℕ, map};
    ghost use Rattle.lash_model.specs.Formulas.{Sort as SortOfModel};
    ghost use Rattle.formula_core.specs.Variables.{sort_of};

    ghost Value = { List (List ℕ × SortOfModel) };

    ghost view = { λ s. map (λ e. (e.0.now, sort_of e.1)) s.names.entries };
}

impl<'a> Scope<'a> {
    /// No variables.
    pub fn new(alloc: Global) -> Scope<'a>
        ensures { result ≡ [] }
    {
        Scope {
            names: IndexMap::new(alloc),
        }
    }

    /// How many variables are in scope.
    pub fn len(&self) -> usize
        ensures { result ≡ length self.now }
    {
        self.names.len()
    }

    /// The place of a name, if it is in scope.
    pub fn place(&self, name: &[u8]) -> Option<usize>
        ensures place { result ≡ place_of self.now name.now }
        ensures within { IfSome result (λ place. place < length self.now) }
    {
        self.names.get_index_of(name)
    }

    /// The sort of a name, if it is in scope.
    pub fn sort(&self, name: &[u8]) -> Option<Sort>
        ensures { option_map sort_of result ≡ sort_named self.now name.now }
    {
        match self.place(name) {
            Some(place) => self.sort_at(place),
            None => None,
        }
    }

    fn sort_at(&self, place: usize) -> Option<Sort>
        ensures { option_map sort_of result ≡ option_map (λ v. v.1) (slice_get self.now place) }
    {
        match self.names.get_index(place) {
            Some((_, sort)) => Some(*sort),
            None => None,
        }
    }

    /// Declares a variable behind the others. One that is in scope already is repeated, and the scope stays as it was.
    pub fn declare(&mut self, declaration: &Declaration<'a>) -> Result<(), NameError>
        ensures { IsDeclared self.old (declaration_of declaration.now) self.new result }
    {
        let name = declaration.name;
        match self.place(name.bytes) {
            Some(_) => {
                return Err(NameError::Fault(FaultAt {
                    fault: NameFault::Repeated,
                    place: name.place,
                }));
            }
            None => {}
        }
        self.put(name.bytes, declaration.sort)
    }

    // Puts a variable, which is not in scope, behind the others.
    fn put(&mut self, name: &'a [u8], sort: Sort) -> Result<(), NameError>
        requires { place_of self.old name.now ≡ None }
        ensures put { OnOk result (self.new ≡ self.old ++ (name.entry.now, sort_of sort) ∷ []) }
        ensures unchanged { OnErr result (self.new ≡ self.old) }
        ensures memory { IfErr result (λ e. e ≡ NameError.Memory) }
    {
        match self.names.insert(name, sort) {
            Ok(_) => Ok(()),
            Err(_) => Err(NameError::Memory),
        }
    }

    /// Leaves out all but the first variables, which are at most those in scope.
    pub fn leave(&mut self, count: usize)
        requires { count ≤ length self.old }
        ensures { self.new ≡ take count self.old }
    {
        self.names.truncate(count);
    }
}
