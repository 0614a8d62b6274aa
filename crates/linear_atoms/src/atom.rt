//! The table of a linear equation or inequation over integers: a state counts the thresholds below the value that was read (own).
//! Costs a look-up for each threshold and letter, and one sweep over the thresholds for each letter.

ghost use Rattle.std.specs.Prelude.{◌≡◌, ℕ, ℤ, pos, ◌+◌, ◌-◌, ◌*◌, ◌^◌, ◌<◌, ◌≤◌, ◌-ℤ◌, List, length, All, unsigned_abs, IfOk, IfErr};
ghost use Rattle.lash_model.specs.Formulas.{IsInside, Atom};
ghost use Rattle.lash_model.specs.Meaning.{holds};
ghost use Rattle.lash_model.specs.Tables.{IsTable};
ghost use Rattle.lash_model.specs.Standing.{StandsForWhole};
ghost use Rattle.threshold_laws.specs.Thresholds.{seeds, IsAtomTable, IsHeavyAtom};
ghost use Rattle.linear_atoms.specs.Closing.{IsSmall};
ghost use Rattle.linear_atoms.specs.Kinds.{comparison_of};
ghost use Rattle.linear_atoms.specs.Filling.{IsPlan, AreStepsFilled, IsFilling};

use crate::filling::{Plan, fill_outs, fill_steps};
use crate::kind::AtomKind;
use crate::thresholds::thresholds;
use crate::totals::letter_totals;
use digit_codes::Base;
use formula_core::Linear;
use packed_cells::Plain;
use std::alloc::Global;
use step_tables::{BuildError, Table};

/// One less.
fn before(bound: &i128) -> i128
    requires { unsigned_abs bound.now ≤ 2 ^ 40 }
    ensures value { result ≡ bound.now -ℤ pos 1 }
    ensures small { IsSmall result }
{
    *bound - 1
}

/// The bounds whose passing decides the comparison.
fn seeds_of(alloc: Global, kind: AtomKind, bound: &i128) -> Result<Vec<i128>, BuildError>
    requires { unsigned_abs bound.now ≤ 2 ^ 40 }
    ensures seeds { IfOk result (λ v. v.items ≡ seeds (comparison_of kind) bound.now) }
    ensures small { IfOk result (λ v. All IsSmall v.items) }
    ensures never { IfErr result (λ e. e ≡ BuildError.Memory) }
{
    let made = match kind {
        AtomKind::Le => Vec::from_slice(alloc, &[*bound]),
        AtomKind::Eq => Vec::from_slice(alloc, &[*bound, before(bound)]),
    };
    match made {
        Ok(seeds) => Ok(seeds),
        Err(_) => Err(BuildError::Memory),
    }
}

/// How many thresholds there may be, so that a table of one integer state more, and of so many fraction states, is within the limit.
pub(crate) fn room_for(letters: u32, fracs: u32, limit: u64) -> usize
    requires letters { letters ≤ 4096 }
    requires fracs { fracs ≤ 2 ^ 25 }
    requires limit { limit ≤ 16777216 }
    ensures fits { 0 < result → (result + 1 + fracs) * (letters + 1) ≤ limit }
    ensures over { limit < (result + 2 + fracs) * (letters + 1) }
    ensures bound { result ≤ 16777216 }
{
    (limit / (u64::from(letters) + 1)).saturating_sub(1 + u64::from(fracs)) as usize
}

/// The table of an equation or inequation over integers, of so many tracks. The atom's places are tracks, the atom is inside the
/// limits of coefficients and constants, there are at most 4,096 letters, and the limit of cells is at most 16,777,216. `Heavy`
/// comes exactly if the cells, one more than the letters for each state, pass the limit; a state is a number of thresholds.
pub fn atom_int(
    alloc: Global,
    base: Base,
    atom: &Linear,
    tracks: u32,
    kind: AtomKind,
    limit: u64,
) -> Result<Table<Plain>, BuildError>
    requires places { All (λ t. t.0 < tracks) atom.now.terms }
    requires inside { IsInside atom.now }
    requires letters { base ^ tracks ≤ 4096 }
    requires limit { limit ≤ 16777216 }
    ensures stands { IfOk result (λ t. StandsForWhole t.table (holds (Atom (comparison_of kind) atom.now))) }
    ensures counts { IfOk result (λ t. IsAtomTable (comparison_of kind) atom.now base tracks limit t.table) }
    ensures table { IfOk result (λ t. IsTable t.table) }
    ensures heavy { IfErr result (λ e. e ≡ BuildError.Heavy → IsHeavyAtom (comparison_of kind) atom.now base tracks limit) }
{
    let totals = letter_totals(alloc, base, tracks, atom)?;
    let seeds = seeds_of(alloc, kind, &atom.constant())?;
    let room = room_for(base.radix().pow(tracks), 0, limit);
    let thresholds = match thresholds(alloc, base.radix(), &totals, &seeds, room) {
        Ok(thresholds) => thresholds,
        Err(error) => return Err(error),
    };
    let plan = Plan {
        base,
        tracks,
        kind,
        atom,
        totals: &totals,
        thresholds: &thresholds,
        fracs: 0,
    };
    match table_of(alloc, &plan) {
        Ok(table) => Ok(table),
        Err(error) => Err(error),
    }
}

/// The table of a plan without fraction states.
fn table_of(alloc: Global, plan: &Plan) -> Result<Table<Plain>, BuildError>
    requires plan { IsPlan plan.now.base plan.now.tracks plan.now.atom.now plan.now.totals.now plan.now.thresholds.now }
    requires whole { plan.now.fracs ≡ 0 }
    requires cells { (length plan.now.thresholds.now + 1) * (plan.now.base ^ plan.now.tracks + 1) ≤ 16777216 }
    ensures filled { IfOk result (λ t. IsFilling (comparison_of plan.now.kind) plan.now.atom.now plan.now.base plan.now.tracks plan.now.totals.now
        plan.now.thresholds.now plan.now.fracs (length plan.now.thresholds.now + 1) t) }
    ensures never { IfErr result (λ e. e ≡ BuildError.Memory) }
{
    let mut table = stepping(alloc, plan)?;
    fill_outs(plan, &mut table);
    Ok(table)
}

/// The table of a plan with all its steps, and with outputs, targets and colours of 0.
pub(crate) fn stepping(alloc: Global, plan: &Plan) -> Result<Table<Plain>, BuildError>
    requires plan { IsPlan plan.now.base plan.now.tracks plan.now.atom.now plan.now.totals.now plan.now.thresholds.now }
    requires cells { (length plan.now.thresholds.now + 1 + plan.now.fracs) * (plan.now.base ^ plan.now.tracks + 1) ≤ 16777216 }
    ensures steps { IfOk result (λ t. AreStepsFilled plan.now.atom.now plan.now.base plan.now.tracks plan.now.totals.now plan.now.thresholds.now plan.now.fracs
        (2 ^ plan.now.tracks) ((length plan.now.thresholds.now + 1) * length plan.now.totals.now) t) }
    ensures never { IfErr result (λ e. e ≡ BuildError.Memory) }
{
    let states = plan.thresholds.len() as u32 + 1;
    let mut table = match Table::blank(alloc, plan.base, plan.tracks, states, plan.fracs) {
        Ok(table) => table,
        Err(_) => return Err(BuildError::Memory),
    };
    fill_steps(plan, &mut table);
    Ok(table)
}
