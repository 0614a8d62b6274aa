//! The table of a linear equation or inequation over the fractions: integer states count the thresholds of all bounds of the window, and
//! fraction states are the bounds themselves (own). Costs a look-up for each threshold and letter, one sweep over the thresholds for each
//! letter, and a step for each bound and letter.

ghost use Rattle.std.specs.Prelude.{◌≡◌, ℕ, ℤ, pos, ◌+◌, ◌-◌, ◌*◌, ◌^◌, ◌<◌, ◌≤◌, ◌+ℤ◌, ◌-ℤ◌, List, length, All, unsigned_abs, IfOk, IfErr};
ghost use Rattle.lash_model.specs.Formulas.{IsInside, Atom};
ghost use Rattle.lash_model.specs.Meaning.{holds};
ghost use Rattle.lash_model.specs.Tables.{IsTable, letters};
ghost use Rattle.lash_model.specs.Standing.{StandsForMixed};
ghost use Rattle.part_laws.specs.Graphs.{IsWeak};
ghost use Rattle.part_laws.specs.CanonicalMixed.{fraction_graph};
ghost use Rattle.lasso_laws.specs.Windows.{window, window_end, window_seeds};
ghost use Rattle.lasso_laws.specs.RealAtoms.{bound_states, IsRealAtomTable, IsHeavyRealAtom};
ghost use Rattle.linear_atoms.specs.Closing.{IsSmall, IsOverfull};
ghost use Rattle.linear_atoms.specs.Kinds.{comparison_of};
ghost use Rattle.linear_atoms.specs.Bounds.{IsWindow, IsBoundPlan, AreBoundsFilled};

use crate::atom::{room_for, stepping};
use crate::bounds::fill_bounds;
use crate::filling::Plan;
use crate::kind::AtomKind;
use crate::thresholds::thresholds;
use crate::totals::letter_totals;
use crate::window::Window;
use digit_codes::Base;
use formula_core::Linear;
use packed_cells::Plain;
use std::alloc::Global;
use step_tables::{BuildError, Table};

/// A number with so many more.
fn raised(number: &i128, more: u32) -> i128
    requires { unsigned_abs number.now ≤ 2 ^ 42 }
    ensures { result ≡ number.now +ℤ pos more }
{
    *number + i128::from(more)
}

/// The seed at a place: the values that separate the bounds of the window, rising.
fn seed_at(bounds: &Window, at: u32) -> i128
    requires window { IsWindow bounds.now.atom.now.terms bounds.now.lowest bounds.now.sum }
    requires constant { unsigned_abs bounds.now.atom.now.constant ≤ 2 ^ 40 }
    requires at { at < window (comparison_of bounds.now.kind) bounds.now.atom.now.terms + 1 }
    ensures value { result ≡ (bounds.now.atom.now.constant -ℤ window_end (comparison_of bounds.now.kind) bounds.now.atom.now.terms) +ℤ pos at }
    ensures small { IsSmall result }
{
    let first = bounds.bound_left(&bounds.end());
    raised(&first, at)
}

/// The seeds of all bounds of the window, if there is room for so many thresholds. They are counted before they are laid out.
fn seeds_of(alloc: Global, bounds: &Window, room: usize) -> Result<Vec<i128>, BuildError>
    requires window { IsWindow bounds.now.atom.now.terms bounds.now.lowest bounds.now.sum }
    requires constant { unsigned_abs bounds.now.atom.now.constant ≤ 2 ^ 40 }
    ensures seeds { IfOk result (λ v. v.items ≡ window_seeds (comparison_of bounds.now.kind) bounds.now.atom.now) }
    ensures small { IfOk result (λ v. All IsSmall v.items) }
    ensures heavy { IfErr result (λ e. e ≡ BuildError.Heavy → room < window (comparison_of bounds.now.kind) bounds.now.atom.now.terms + 1) }
{
    let count = bounds.size() + 1;
    if room < count as usize {
        return Err(BuildError::Heavy);
    }
    let mut seeds = Vec::new(alloc);
    for at in 0..count {
        match seeds.push(seed_at(bounds, at)) {
            Ok(()) => {}
            Err(_) => return Err(BuildError::Memory),
        }
    }
    Ok(seeds)
}

/// The table of a plan whose fraction states are the bounds of a window.
fn table_of(alloc: Global, plan: &Plan, window: &Window) -> Result<Table<Plain>, BuildError>
    requires plan { IsBoundPlan plan.now window.now }
    requires cells { (length plan.now.thresholds.now + 1 + bound_states plan.now.atom.now.terms) * (plan.now.base ^ plan.now.tracks + 1) ≤ 16777216 }
    ensures filled { IfOk result (λ t. AreBoundsFilled (comparison_of plan.now.kind) plan.now.atom.now plan.now.base plan.now.tracks plan.now.totals.now
        plan.now.thresholds.now (length plan.now.thresholds.now + 1) (bound_states plan.now.atom.now.terms * length plan.now.totals.now)
        (bound_states plan.now.atom.now.terms) t) }
    ensures never { IfErr result (λ e. e ≡ BuildError.Memory) }
{
    let mut table = stepping(alloc, plan)?;
    fill_bounds(plan, window, &mut table);
    Ok(table)
}

/// The table of an equation or inequation over the fractions, of so many tracks: a weak automaton that accepts a lasso exactly if the atom
/// holds at its point, whichever of its expansions a number has. The atom's places are tracks, the atom is inside the limits of
/// coefficients and constants, there are at most 4,096 letters, and the limit of cells is at most 16,777,216. `Heavy` comes exactly if the
/// cells, one more than the letters for each state of both parts, pass the limit; an integer state is a number of thresholds, and there are
/// two more fraction states than the magnitudes of the coefficients sum to.
pub fn atom_real(
    alloc: Global,
    base: Base,
    atom: &Linear,
    tracks: u32,
    kind: AtomKind,
    limit: u64,
) -> Result<Table<Plain>, BuildError>
    requires places { All (λ t. t.0 < tracks) atom.now.terms }
    requires inside { IsInside atom.now }
    requires letters { base ^ tracks ≤ 4096 }
    requires limit { limit ≤ 16777216 }
    ensures stands { IfOk result (λ t. StandsForMixed t.table (holds (Atom (comparison_of kind) atom.now))) }
    ensures weak { IfOk result (λ t. IsWeak (letters t.table) (fraction_graph t.table)) }
    ensures counts { IfOk result (λ t. IsRealAtomTable (comparison_of kind) atom.now base tracks limit t.table) }
    ensures table { IfOk result (λ t. IsTable t.table) }
    ensures heavy { IfErr result (λ e. e ≡ BuildError.Heavy → IsHeavyRealAtom (comparison_of kind) atom.now base tracks limit) }
{
    let totals = letter_totals(alloc, base, tracks, atom)?;
    let window = Window::new(kind, atom);
    let fracs = window.states();
    let room = room_for(base.radix().pow(tracks), fracs, limit);
    let seeds = match seeds_of(alloc, &window, room) {
        Ok(seeds) => seeds,
        Err(error) => return Err(error),
    };
    let thresholds = match thresholds(alloc, base.radix(), &totals, &seeds, room) {
        Ok(thresholds) => thresholds,
        Err(error) => return Err(error),
    };
    let plan = Plan {
        base,
        tracks,
        kind,
        atom,
        totals: &totals,
        thresholds: &thresholds,
        fracs,
    };
    match table_of(alloc, &plan, &window) {
        Ok(table) => Ok(table),
        Err(error) => Err(error),
    }
}
