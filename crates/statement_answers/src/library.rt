//! The kept sets, each with its header and its automaton. Own.

ghost use Rattle.std.specs.Prelude.{◌≡◌, ◌⊎◌, ◌<◌, ◌≤◌, ◌+◌, ◌++◌, ◌∷◌, [], All, length, IfErr, OnOk, OnErr, None, Some, slice_get};
ghost use Rattle.formula_core.specs.Shape.{formula_of};
ghost use Rattle.script_names.specs.Kept.{IsKept, KeptSet, kept_place, sets_limit};
ghost use Rattle.statement_answers.specs.Automata.{IsGiven, cells_of};
ghost use Rattle.statement_answers.specs.Keeping.{IsHeld, IsLibrary, kept_cells_limit, sets_kept};

use crate::errors::Unanswered;
use crate::settings::Settings;
use canon_text::Header;
use formula_core::{Formula, Vars};
use packed_cells::Packed;
use script_names::{Defs, Name};
use std::alloc::Global;
use std::marker::Model;
use step_tables::Table;
use weak_min::Canon;

/// The greatest number of cells of all kept sets together.
const KEPT_CELLS_LIMIT: u64 = 67_108_864;

/// What is held of a kept set.
#[derive(Drop)]
pub(crate) struct Held {
    pub header: Header,
    pub canon: Canon,
}

/// The settings and the kept sets of a session, with the header and the canonical table of each, of at most 67,108,864 cells together.
#[derive(Drop)]
pub struct Library {
    settings: Settings,
    defs: Defs,
    held: Vec<Held>,
    cells: u64,
}

impl Model for Library {
    ghost use Rattle.std.specs.Prelude.{map};
    ghost use Rattle.formula_core.specs.contracts.formula.Formula as boxed;
    ghost use Rattle.std.specs.Coded.{codes};
    ghost use Rattle.statement_answers.specs.Keeping.{Library as LibraryOfModel, IsLibrary, pair_of};

    ghost Value = { LibraryOfModel };

    ghost coded = { Prim.hlevel (codes, boxed.the_row.coded) };

    ghost view = { λ l. record { settings = l.settings; definitions = l.defs; held = map pair_of l.held.items; cells = l.cells } };

    ghost invariant = { λ l. IsLibrary (record { settings = l.settings; definitions = l.defs; held = map pair_of l.held.items; cells = l.cells }) };
}

// For each state one cell, and one for each letter.
fn table_cells(table: &Table<Packed>) -> u64
    ensures cells { result ≡ cells_of table.now.table }
    ensures few { result ≤ 16777216 }
{
    let letters = table.letters() as u64;
    (table.ints() as u64 + table.fracs() as u64) * (letters + 1)
}

impl Library {
    /// No sets, under these settings, whose limit of cells is at most 16,777,216.
    pub fn new(alloc: Global, settings: Settings) -> Library
        requires { settings.cells ≤ 16777216 }
        ensures { result ≡ record { settings = settings; definitions = []; held = []; cells = 0 } }
    {
        Library {
            settings,
            defs: Defs::new(alloc),
            held: Vec::new(alloc),
            cells: 0,
        }
    }

    /// The settings.
    pub fn settings(&self) -> Settings
        ensures settings { result ≡ self.now.settings }
        ensures base { 2 ≤ result.base }
        ensures limit { result.cells ≤ 16777216 }
    {
        // Each base is at least 2.
        let _radix = self.settings.base.radix();
        self.settings
    }

    /// The kept sets.
    pub fn defs(&self) -> &Defs
        ensures defs { result.now ≡ self.now.definitions }
        ensures base { 2 ≤ self.now.settings.base }
        ensures given { All (λ k. IsGiven self.now.settings.base k.vars k.formula) (sets_kept self.now) }
    {
        // Each base is at least 2.
        let _radix = self.settings.base.radix();
        &self.defs
    }

    /// What is held of the set at a place, which is below the number of sets.
    pub(crate) fn held(&self, at: u32) -> &Held
        requires { at < length (sets_kept self.now) }
        ensures { (k : KeptSet) → slice_get (sets_kept self.now) at ≡ Some k → IsHeld self.now.settings k result.now.header result.now.canon.table }
    {
        &self.held[at as usize]
    }

    /// Keeps a set, with its header and its automaton, after the others. A refusal leaves the kept sets as they were.
    pub(crate) fn put(
        &mut self,
        name: Name,
        vars: Vars,
        formula: Formula,
        held: Held,
    ) -> Result<(), Unanswered>
        requires room { length (sets_kept self.old) < sets_limit }
        requires fresh { kept_place (sets_kept self.old) name ≡ None }
        requires inside { IsKept (record { name = name; vars = vars; formula = formula_of formula }) }
        requires held { IsHeld self.old.settings (record { name = name; vars = vars; formula = formula_of formula }) held.header held.canon.table }
        ensures library { IsLibrary self.old }
        ensures kept { OnOk result (sets_kept self.new ≡ sets_kept self.old ++ record { name = name; vars = vars; formula = formula_of formula } ∷ []) }
        ensures within { OnOk result (self.old.cells + cells_of held.canon.table ≤ kept_cells_limit) }
        ensures over { IfErr result (λ e. e ≡ Unanswered.KeptCells → kept_cells_limit < self.old.cells + cells_of held.canon.table) }
        ensures only { IfErr result (λ e. (e ≡ Unanswered.KeptCells) ⊎ (e ≡ Unanswered.Memory)) }
        ensures stays { OnErr result (sets_kept self.new ≡ sets_kept self.old) }
        ensures settings { self.new.settings ≡ self.old.settings }
    {
        let cells = self.cells + table_cells(held.canon.table());
        if cells > KEPT_CELLS_LIMIT {
            return Err(Unanswered::KeptCells);
        }
        match self.held.push(held) {
            Ok(()) => {}
            Err(_) => return Err(Unanswered::Memory),
        }
        match self.defs.keep(name, vars, formula) {
            Ok(()) => {
                self.cells = cells;
                Ok(())
            }
            Err(_) => {
                self.held.pop();
                Err(Unanswered::Memory)
            }
        }
    }
}
