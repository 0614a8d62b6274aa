//! The free variables of a formula (own): a mark for each place, and one walk over the formula.

ghost use Rattle.std.specs.Prelude.{◌≡◌, ℕ, ◌<◌, ◌||◌, Bool, false, IfOk, OnOk, length, List, slice_index_or, ◌^◌};
ghost use Rattle.std.specs.List.{filter, range_with_len};
ghost use Rattle.lash_model.specs.Formulas.{IsLinear};
ghost use Rattle.formula_core.specs.Atoms.{HasLinearAtoms};
ghost use Rattle.formula_core.specs.Counts.{uses, term_uses, free_places};
ghost use Rattle.formula_core.specs.Marks.{AreMarked};
ghost use Rattle.formula_core.specs.Shape.{formula_of};

use crate::formula::Formula;
use crate::linear::Linear;
use lash_io::Memory;
use std::alloc::Global;

/// The places below `places` that have a nonzero coefficient in some atom, rising. The atoms are linear, as of any formula.
pub fn free_vars(alloc: Global, formula: &Formula, places: u32) -> Result<Vec<u32>, Memory>
    ensures places { IfOk result (λ free. free.items ≡ free_places (formula_of formula.now) places) }
    ensures linear { OnOk result (HasLinearAtoms (formula_of formula.now)) }
{
    let mut marks = match Vec::from_elem(alloc, false, places as usize) {
        Ok(marks) => marks,
        Err(_) => return Err(Memory),
    };
    mark(formula, &mut marks);
    marked(alloc, &marks)
}

// Marks the places that the formula uses.
fn mark(formula: &Formula, marks: &mut [bool])
    ensures marks { AreMarked (λ place. uses place (formula_of formula.now)) marks.old marks.new }
    ensures linear { HasLinearAtoms (formula_of formula.now) }
{
    match formula {
        Formula::Le(term) | Formula::Eq(term) => mark_term(term, marks),
        Formula::Not(inner) | Formula::Exists(_, inner) => mark(inner, marks),
        Formula::And(left, right) | Formula::Or(left, right) => {
            mark(left, marks);
            mark(right, marks);
        }
    }
}

// Marks the places that the term uses.
fn mark_term(term: &Linear, marks: &mut [bool])
    ensures marks { AreMarked (λ place. term_uses place term.now) marks.old marks.new }
    ensures linear { IsLinear term.now }
{
    for (place, _) in term.terms() {
        let at = *place as usize;
        if at < marks.len() {
            marks[at] = true;
        }
    }
}

// The marked places, rising.
fn marked(alloc: Global, marks: &[bool]) -> Result<Vec<u32>, Memory>
    requires { length marks.now < 2 ^ 32 }
    ensures { IfOk result (λ places. places.items ≡ filter (λ place. slice_index_or marks.now place false) (range_with_len 0 (length marks.now))) }
{
    let mut places = Vec::new(alloc);
    for (place, marked) in marks.iter().enumerate() {
        if *marked {
            match places.push(place as u32) {
                Ok(()) => {}
                Err(_) => return Err(Memory),
            }
        }
    }
    Ok(places)
}
