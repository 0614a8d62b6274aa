//! Lists of variables: names with their sorts, by place (own). The sorts stand in a list of their own, which is lent as it is.

ghost use Rattle.std.specs.Prelude.{◌≡◌, ◌<◌, ◌≤◌, ℕ, List, [], ◌∷◌, ◌++◌, length, map, All, OnOk, OnErr, IfOk, slice_index_or};
ghost use Rattle.formula_core.specs.Names.{IsVariableName};
ghost use Rattle.formula_core.specs.Variables.{sort_of, names_of, sorts_of, AreVariables};

use crate::sort::Sort;
use lash_io::Memory;
use std::alloc::Global;
use std::marker::Model;

/// Names with their sorts. Each name is that of a variable, and none stands twice.
#[derive(Debug, Drop)]
pub struct Vars {
    names: Vec<Vec<u8>>,
    sorts: Vec<Sort>,
}

impl Model for Vars {
    ghost use Rattle.std.specs.Prelude.{◌≡◌, List, ℕ, length, map};
    ghost use Rattle.std.specs.List.{zip};
    ghost use Rattle.lash_model.specs.Formulas.{Sort as SortOfModel};
    ghost use Rattle.formula_core.specs.Variables.{sort_of, AreVariables};

    ghost Value = { List (List ℕ × SortOfModel) };

    ghost view = { λ v. zip (map (λ n. n.items) v.names.items) (map sort_of v.sorts.items) };

    ghost invariant = { λ v. record { same_length : length v.sorts.items ≡ length v.names.items; variables : AreVariables (map (λ n. n.items) v.names.items) } };
}

impl Vars {
    /// No variables.
    pub fn new(alloc: Global) -> Vars
        ensures { result ≡ [] }
    {
        Vars {
            names: Vec::new(alloc),
            sorts: Vec::new(alloc),
        }
    }

    /// Appends a variable. Its name is a variable's and new, as a condition. Only want of memory is refused, and leaves the list as it
    /// was.
    pub fn add(&mut self, name: &[u8], sort: Sort) -> Result<(), Memory>
        requires named { IsVariableName name.now }
        requires fresh { All (λ old. old ≡ name.now → ⊥) (names_of self.old) }
        ensures appended { OnOk result (self.new ≡ self.old ++ (name.now, sort_of sort) ∷ []) }
        ensures unchanged { OnErr result (self.new ≡ self.old) }
    {
        let copy = match Vec::from_slice(*self.names.allocator(), name) {
            Ok(copy) => copy,
            Err(_) => return Err(Memory),
        };
        if self.names.push(copy).is_err() {
            return Err(Memory);
        }
        if self.sorts.push(sort).is_err() {
            self.names.pop();
            return Err(Memory);
        }
        Ok(())
    }

    /// The sorts, by place.
    pub fn sorts(&self) -> &[Sort]
        ensures { map sort_of result.now ≡ sorts_of self.now }
    {
        self.sorts.as_slice()
    }

    /// The name at a place, which is below the number of variables.
    pub fn name(&self, at: u32) -> &[u8]
        requires { at < length self.now }
        ensures name { result.now ≡ slice_index_or (names_of self.now) at [] }
        ensures variables { AreVariables (names_of self.now) }
    {
        self.names[at as usize].as_slice()
    }

    /// The same list once more.
    pub fn copy(&self, alloc: Global) -> Result<Vars, Memory>
        ensures { IfOk result (λ vars. vars ≡ self.now) }
    {
        let names = match Vec::from_clones(alloc, &self.names) {
            Ok(names) => names,
            Err(_) => return Err(Memory),
        };
        match Vec::from_slice(alloc, &self.sorts) {
            Ok(sorts) => Ok(Vars { names, sorts }),
            Err(_) => Err(Memory),
        }
    }
}
