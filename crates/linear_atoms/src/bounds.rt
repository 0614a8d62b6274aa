//! Filling the table of an atom over the fractions, if its integer steps are filled: outputs, the rows of fraction states, and colours.

ghost use Rattle.std.specs.Prelude.{◌≡◌, ◌+◌, ◌*◌, ◌^◌, ◌<◌, ◌-ℤ◌, length};
ghost use Rattle.threshold_laws.specs.Thresholds.{representative};
ghost use Rattle.lasso_laws.specs.RealAtoms.{bound_states, bound_state};
ghost use Rattle.linear_atoms.specs.Kinds.{comparison_of};
ghost use Rattle.linear_atoms.specs.Filling.{IsPlan, AreStepsFilled};
ghost use Rattle.linear_atoms.specs.Bounds.{IsWindow, IsBoundPlan, AreBoundsFilled};

use crate::counts::value_of_count;
use crate::filling::Plan;
use crate::window::Window;
use packed_cells::Plain;
use step_tables::Table;

/// The output of a count: the state of the bound that its values leave.
fn out_of(plan: &Plan, window: &Window, count: u32) -> u32
    requires plan { IsBoundPlan plan.now window.now }
    ensures value { result ≡ bound_state (comparison_of plan.now.kind) plan.now.atom.now.terms
        (plan.now.atom.now.constant -ℤ representative plan.now.thresholds.now count) }
    ensures within { result < bound_states plan.now.atom.now.terms }
{
    let value = value_of_count(plan.thresholds, count);
    window.state_of(&window.bound_left(&value))
}

/// Fills the outputs.
fn fill_outs(plan: &Plan, window: &Window, table: &mut Table<Plain>)
    requires plan { IsBoundPlan plan.now window.now }
    requires before { AreBoundsFilled (comparison_of plan.now.kind) plan.now.atom.now plan.now.base plan.now.tracks plan.now.totals.now plan.now.thresholds.now
        0 0 0 table.old }
    ensures filled { AreBoundsFilled (comparison_of plan.now.kind) plan.now.atom.now plan.now.base plan.now.tracks plan.now.totals.now plan.now.thresholds.now
        (length plan.now.thresholds.now + 1) 0 0 table.new }
{
    for count in 0..plan.thresholds.len() as u32 + 1 {
        table.set_out(count, out_of(plan, window, count));
    }
}

/// Fills the row of a fraction state.
fn fill_row(plan: &Plan, window: &Window, table: &mut Table<Plain>, state: u32)
    requires plan { IsBoundPlan plan.now window.now }
    requires state { state < bound_states plan.now.atom.now.terms }
    requires before { AreBoundsFilled (comparison_of plan.now.kind) plan.now.atom.now plan.now.base plan.now.tracks plan.now.totals.now plan.now.thresholds.now
        (length plan.now.thresholds.now + 1) (state * length plan.now.totals.now) 0 table.old }
    ensures filled { AreBoundsFilled (comparison_of plan.now.kind) plan.now.atom.now plan.now.base plan.now.tracks plan.now.totals.now plan.now.thresholds.now
        (length plan.now.thresholds.now + 1) ((state + 1) * length plan.now.totals.now) 0 table.new }
{
    for letter in 0..plan.totals.len() as u32 {
        let total = &plan.totals[letter as usize];
        table.set_frac(
            state,
            letter,
            window.target(plan.base.radix(), total, state),
        );
    }
}

/// Fills the rows of the fraction states.
fn fill_rows(plan: &Plan, window: &Window, table: &mut Table<Plain>)
    requires plan { IsBoundPlan plan.now window.now }
    requires before { AreBoundsFilled (comparison_of plan.now.kind) plan.now.atom.now plan.now.base plan.now.tracks plan.now.totals.now plan.now.thresholds.now
        (length plan.now.thresholds.now + 1) 0 0 table.old }
    ensures filled { AreBoundsFilled (comparison_of plan.now.kind) plan.now.atom.now plan.now.base plan.now.tracks plan.now.totals.now plan.now.thresholds.now
        (length plan.now.thresholds.now + 1) (bound_states plan.now.atom.now.terms * length plan.now.totals.now) 0 table.new }
{
    for state in 0..window.states() {
        fill_row(plan, window, table, state);
    }
}

/// Fills the colours.
fn fill_colours(plan: &Plan, window: &Window, table: &mut Table<Plain>)
    requires plan { IsBoundPlan plan.now window.now }
    requires before { AreBoundsFilled (comparison_of plan.now.kind) plan.now.atom.now plan.now.base plan.now.tracks plan.now.totals.now plan.now.thresholds.now
        (length plan.now.thresholds.now + 1) (bound_states plan.now.atom.now.terms * length plan.now.totals.now) 0 table.old }
    ensures filled { AreBoundsFilled (comparison_of plan.now.kind) plan.now.atom.now plan.now.base plan.now.tracks plan.now.totals.now plan.now.thresholds.now
        (length plan.now.thresholds.now + 1) (bound_states plan.now.atom.now.terms * length plan.now.totals.now)
        (bound_states plan.now.atom.now.terms) table.new }
{
    for state in 0..window.states() {
        table.set_colour(state, window.is_yes(state));
    }
}

/// Fills all that the integer steps leave.
pub fn fill_bounds(plan: &Plan, window: &Window, table: &mut Table<Plain>)
    requires plan { IsBoundPlan plan.now window.now }
    requires steps { AreStepsFilled plan.now.atom.now plan.now.base plan.now.tracks plan.now.totals.now plan.now.thresholds.now
        (bound_states plan.now.atom.now.terms) (2 ^ plan.now.tracks) ((length plan.now.thresholds.now + 1) * length plan.now.totals.now) table.old }
    ensures filled { AreBoundsFilled (comparison_of plan.now.kind) plan.now.atom.now plan.now.base plan.now.tracks plan.now.totals.now plan.now.thresholds.now
        (length plan.now.thresholds.now + 1) (bound_states plan.now.atom.now.terms * length plan.now.totals.now)
        (bound_states plan.now.atom.now.terms) table.new }
{
    fill_outs(plan, window, table);
    fill_rows(plan, window, table);
    fill_colours(plan, window, table);
}
