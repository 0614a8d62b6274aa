//! The sets that a script keeps, found by their names (a hash map that keeps its order). Own.

ghost use Rattle.std.specs.Prelude.{◌≡◌, ◌<◌, ◌++◌, ◌∷◌, [], length, IfOk, IfSome, OnOk, OnErr, None, slice_get, Some};
ghost use Rattle.formula_core.specs.Shape.{formula_of};
ghost use Rattle.script_names.specs.Kept.{AreKept, IsKept, KeptSet, kept_place, sets_in, sets_limit, sets_of};

use formula_core::{Formula, Vars};
use indexmap::IndexMap;
use lash_io::Memory;
use std::alloc::Global;
use std::marker::Model;

/// The name of a set.
#[derive(Debug, Drop)]
pub struct Name {
    bytes: Vec<u8>,
}

impl Model for Name {
    ghost use Rattle.std.specs.Prelude.{List, ℕ};

    ghost Value = { List ℕ };

    ghost view = { λ n. n.bytes.items };
}

impl Name {
    /// The name of these bytes. Only want of memory is refused.
    pub fn new(alloc: Global, bytes: &[u8]) -> Result<Name, Memory>
        ensures { IfOk result (λ name. name ≡ bytes.now) }
    {
        match Vec::from_slice(alloc, bytes) {
            Ok(bytes) => Ok(Name { bytes }),
            Err(_) => Err(Memory),
        }
    }

    /// The bytes of the name.
    pub fn bytes(&self) -> &[u8]
        ensures { result.now ≡ self.now }
    {
        self.bytes.as_slice()
    }
}

/// Variables and a formula over them.
#[derive(Debug, Drop)]
struct Definition {
    vars: Vars,
    formula: Formula,
}

// Puts a definition, whose name is new, behind the others.
fn insert_new(
    sets: &mut IndexMap<Vec<u8>, Definition>,
    name: Vec<u8>,
    definition: Definition,
) -> Result<(), Memory>
    requires { kept_place (sets_in sets.old.entries) name.items ≡ None }
    ensures inserted { OnOk result (sets.new.entries ≡ sets.old.entries ++ (name, definition) ∷ []) }
    ensures unchanged { OnErr result (sets.new.entries ≡ sets.old.entries) }
{
    match sets.insert(name, definition) {
        Ok(_) => Ok(()),
        Err(_) => Err(Memory),
    }
}

/// The sets that are kept, in the order in which they were: at most 1,024, each with a name of its own, its variables, and a formula over
/// them inside the limits of nodes, depth, coefficients and constants.
#[derive(Drop)]
pub struct Defs {
    sets: IndexMap<Vec<u8>, Definition>,
}

impl Model for Defs {
    ghost use Rattle.std.specs.Prelude.{List, ℕ, map};
    ghost use Rattle.script_names.specs.declared.kept.Definition.{Definition as DefinitionOfModel};
    ghost use Rattle.script_names.specs.Kept.{AreKept, item_of, sets_in};
    ghost use Rattle.formula_core.specs.contracts.formula.Formula as boxed;
    ghost use Rattle.std.specs.Coded.{codes};

    ghost Value = { List (List ℕ × DefinitionOfModel) };

    ghost coded = { Prim.hlevel (codes, boxed.the_row.coded) };

    ghost view = { λ d. map item_of d.sets.entries };

    ghost invariant = { λ d. AreKept (sets_in d.sets.entries) };
}

impl Defs {
    /// No sets.
    pub fn new(alloc: Global) -> Defs
        ensures { result ≡ [] }
    {
        Defs {
            sets: IndexMap::new(alloc),
        }
    }

    /// How many sets are kept.
    pub fn len(&self) -> u32
        ensures len { result ≡ length self.now }
        ensures kept { AreKept (sets_of self.now) }
    {
        self.sets.len() as u32
    }

    /// Keeps a set behind the others. Conditions: fewer than 1,024 are kept, none of the name, and the formula is over the variables and
    /// inside the limits. Only want of memory is refused, and leaves the sets as they were.
    pub fn keep(&mut self, name: Name, vars: Vars, formula: Formula) -> Result<(), Memory>
        requires room { length self.old < sets_limit }
        requires fresh { kept_place (sets_of self.old) name ≡ None }
        requires inside { IsKept (record { name = name; vars = vars; formula = formula_of formula }) }
        ensures kept { OnOk result (sets_of self.new ≡ sets_of self.old ++ record { name = name; vars = vars; formula = formula_of formula } ∷ []) }
        ensures unchanged { OnErr result (self.new ≡ self.old) }
    {
        insert_new(&mut self.sets, name.bytes, Definition { vars, formula })
    }

    /// The place of a set by its name, if it is kept.
    pub fn place(&self, name: &[u8]) -> Option<u32>
        ensures place { result ≡ kept_place (sets_of self.now) name.now }
        ensures within { IfSome result (λ at. at < length self.now) }
    {
        match self.sets.get_index_of(name) {
            Some(at) => Some(at as u32),
            None => None,
        }
    }

    /// The variables of the set at a place, which is below the number of sets.
    pub fn vars(&self, at: u32) -> &Vars
        requires { at < length self.now }
        ensures vars { (k : KeptSet) → slice_get (sets_of self.now) at ≡ Some k → result.now ≡ k.vars }
        ensures kept { AreKept (sets_of self.now) }
    {
        &self.definition(at).vars
    }

    /// The formula of the set at a place, which is below the number of sets.
    pub fn formula(&self, at: u32) -> &Formula
        requires { at < length self.now }
        ensures formula { (k : KeptSet) → slice_get (sets_of self.now) at ≡ Some k → formula_of result.now ≡ k.formula }
        ensures kept { AreKept (sets_of self.now) }
    {
        &self.definition(at).formula
    }

    /// The name of the set at a place, which is below the number of sets.
    pub fn name(&self, at: u32) -> &[u8]
        requires { at < length self.now }
        ensures { (k : KeptSet) → slice_get (sets_of self.now) at ≡ Some k → result.now ≡ k.name }
    {
        match self.sets.get_index(at as usize) {
            Some((name, _)) => name.as_slice(),
            None => unreachable!(),
        }
    }

    // The definition of the set at a place, which is below the number of sets.
    fn definition(&self, at: u32) -> &Definition
        requires { at < length self.now }
        ensures kept { AreKept (sets_of self.now) }
        ensures vars { (k : KeptSet) → slice_get (sets_of self.now) at ≡ Some k → result.now.vars ≡ k.vars }
        ensures formula { (k : KeptSet) → slice_get (sets_of self.now) at ≡ Some k → formula_of result.now.formula ≡ k.formula }
    {
        match self.sets.get_index(at as usize) {
            Some((_, definition)) => definition,
            None => unreachable!(),
        }
    }
}
