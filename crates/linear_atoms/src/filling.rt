//! Filling the table of an atom from its rising thresholds and the totals of its letters: first its steps, which are the same for every
//! kind of output, then its outputs.

ghost use Rattle.std.specs.Prelude.{◌≡◌, ℕ, ℤ, pos, ◌+◌, ◌*◌, ◌^◌, ◌<◌, ◌≤◌, neg_ℤ, List, length, unsigned_abs};
ghost use Rattle.lash_model.specs.Tables.{letters, ints};
ghost use Rattle.threshold_laws.specs.Thresholds.{passes, below, representative, one_if, sign_total};
ghost use Rattle.linear_atoms.specs.Closing.{entry};
ghost use Rattle.linear_atoms.specs.Kinds.{comparison_of};
ghost use Rattle.linear_atoms.specs.Filling.{target_of, IsPlan, AreStepsFilled, IsFilling};

use crate::counts::{count_below, count_from, next_value, value_of_count};
use crate::kind::AtomKind;
use crate::totals::digits_total;
use digit_codes::Base;
use formula_core::Linear;
use packed_cells::Plain;
use step_tables::Table;

/// What a table is filled from, and the number of its fraction states.
#[derive(Clone, Copy)]
pub struct Plan<'a> {
    pub base: Base,
    pub tracks: u32,
    pub kind: AtomKind,
    pub atom: &'a Linear,
    pub totals: &'a [i128],
    pub thresholds: &'a [i128],
    pub fracs: u32,
}

/// The base of sign vectors.
fn binary() -> Base
    ensures { result ≡ 2 }
{
    match Base::new(2) {
        Some(two) => two,
        None => unreachable!(),
    }
}

/// Minus a small number.
fn negated(number: &i128) -> i128
    requires { unsigned_abs number.now ≤ 2 ^ 28 }
    ensures { result ≡ neg_ℤ number.now }
{
    -*number
}

/// Whether a value passes the comparison with the bound.
fn passes_bound(kind: AtomKind, value: &i128, bound: &i128) -> bool
    ensures { result ≡ passes (comparison_of kind) value.now bound.now }
{
    match kind {
        AtomKind::Le => *value <= *bound,
        AtomKind::Eq => *value == *bound,
    }
}

/// The state that a letter leads to. It is looked for from another state on.
fn target(plan: &Plan, state: u32, letter: u32, from: u32) -> u32
    requires plan { IsPlan plan.now.base plan.now.tracks plan.now.atom.now plan.now.totals.now plan.now.thresholds.now }
    requires letter { letter < length plan.now.totals.now }
    ensures value { result ≡ target_of plan.now.base plan.now.thresholds.now state (entry plan.now.totals.now letter) }
    ensures within { result < length plan.now.thresholds.now + 1 }
{
    let value = value_of_count(plan.thresholds, state);
    let next = next_value(plan.base.radix(), &value, &plan.totals[letter as usize]);
    count_from(plan.thresholds, &next, from)
}

/// The root of a sign vector.
fn root_of(plan: &Plan, sign: u32) -> u32
    requires plan { IsPlan plan.now.base plan.now.tracks plan.now.atom.now plan.now.totals.now plan.now.thresholds.now }
    requires sign { sign < 2 ^ plan.now.tracks }
    ensures value { result ≡ below plan.now.thresholds.now (neg_ℤ (sign_total plan.now.atom.now.terms plan.now.tracks sign)) }
    ensures within { result < length plan.now.thresholds.now + 1 }
{
    let total = digits_total(binary(), plan.tracks, plan.atom, sign);
    count_below(plan.thresholds, &negated(&total))
}

/// Whether a state's values are accepted: 1 for yes, 0 for no.
fn out_of(plan: &Plan, state: u32) -> u32
    requires plan { IsPlan plan.now.base plan.now.tracks plan.now.atom.now plan.now.totals.now plan.now.thresholds.now }
    ensures value { result ≡ one_if (passes (comparison_of plan.now.kind) (representative plan.now.thresholds.now state) plan.now.atom.now.constant) }
    ensures bit { result < 2 }
{
    let value = value_of_count(plan.thresholds, state);
    if passes_bound(plan.kind, &value, &plan.atom.constant()) {
        1
    } else {
        0
    }
}

/// Fills the roots.
fn fill_roots(plan: &Plan, table: &mut Table<Plain>)
    requires plan { IsPlan plan.now.base plan.now.tracks plan.now.atom.now plan.now.totals.now plan.now.thresholds.now }
    requires blank { AreStepsFilled plan.now.atom.now plan.now.base plan.now.tracks plan.now.totals.now plan.now.thresholds.now plan.now.fracs 0 0 table.old }
    ensures filled { AreStepsFilled plan.now.atom.now plan.now.base plan.now.tracks plan.now.totals.now plan.now.thresholds.now plan.now.fracs
        (2 ^ plan.now.tracks) 0 table.new }
{
    for sign in 0..2u32.pow(plan.tracks) {
        table.set_root(sign, root_of(plan, sign));
    }
}

/// A state at or before the one that a letter leads to: greater values have more thresholds below them, so it is that of the state before.
fn lower_target(table: &Table<Plain>, state: u32, letter: u32) -> u32
    requires state { state < ints table.now.table }
    requires letter { letter < letters table.now.table }
{
    if state == 0 {
        0
    } else {
        table.int_step(state - 1, letter)
    }
}

/// Fills the row of a state.
fn fill_row(plan: &Plan, table: &mut Table<Plain>, state: u32)
    requires plan { IsPlan plan.now.base plan.now.tracks plan.now.atom.now plan.now.totals.now plan.now.thresholds.now }
    requires state { state < length plan.now.thresholds.now + 1 }
    requires before { AreStepsFilled plan.now.atom.now plan.now.base plan.now.tracks plan.now.totals.now plan.now.thresholds.now plan.now.fracs
        (2 ^ plan.now.tracks) (state * length plan.now.totals.now) table.old }
    ensures filled { AreStepsFilled plan.now.atom.now plan.now.base plan.now.tracks plan.now.totals.now plan.now.thresholds.now plan.now.fracs
        (2 ^ plan.now.tracks) ((state + 1) * length plan.now.totals.now) table.new }
{
    for letter in 0..plan.totals.len() as u32 {
        let from = lower_target(&*table, state, letter);
        table.set_int(state, letter, target(plan, state, letter, from));
    }
}

/// Fills the rows.
fn fill_rows(plan: &Plan, table: &mut Table<Plain>)
    requires plan { IsPlan plan.now.base plan.now.tracks plan.now.atom.now plan.now.totals.now plan.now.thresholds.now }
    requires before { AreStepsFilled plan.now.atom.now plan.now.base plan.now.tracks plan.now.totals.now plan.now.thresholds.now plan.now.fracs
        (2 ^ plan.now.tracks) 0 table.old }
    ensures filled { AreStepsFilled plan.now.atom.now plan.now.base plan.now.tracks plan.now.totals.now plan.now.thresholds.now plan.now.fracs
        (2 ^ plan.now.tracks) ((length plan.now.thresholds.now + 1) * length plan.now.totals.now) table.new }
{
    for state in 0..plan.thresholds.len() as u32 + 1 {
        fill_row(plan, table, state);
    }
}

/// Fills the roots and rows of a blank table.
pub fn fill_steps(plan: &Plan, table: &mut Table<Plain>)
    requires plan { IsPlan plan.now.base plan.now.tracks plan.now.atom.now plan.now.totals.now plan.now.thresholds.now }
    requires blank { AreStepsFilled plan.now.atom.now plan.now.base plan.now.tracks plan.now.totals.now plan.now.thresholds.now plan.now.fracs 0 0 table.old }
    ensures filled { AreStepsFilled plan.now.atom.now plan.now.base plan.now.tracks plan.now.totals.now plan.now.thresholds.now plan.now.fracs
        (2 ^ plan.now.tracks) ((length plan.now.thresholds.now + 1) * length plan.now.totals.now) table.new }
{
    fill_roots(plan, table);
    fill_rows(plan, table);
}

/// Fills the outputs of a table without fraction states.
pub fn fill_outs(plan: &Plan, table: &mut Table<Plain>)
    requires plan { IsPlan plan.now.base plan.now.tracks plan.now.atom.now plan.now.totals.now plan.now.thresholds.now }
    requires whole { plan.now.fracs ≡ 0 }
    requires steps { AreStepsFilled plan.now.atom.now plan.now.base plan.now.tracks plan.now.totals.now plan.now.thresholds.now plan.now.fracs
        (2 ^ plan.now.tracks) ((length plan.now.thresholds.now + 1) * length plan.now.totals.now) table.old }
    ensures filled { IsFilling (comparison_of plan.now.kind) plan.now.atom.now plan.now.base plan.now.tracks plan.now.totals.now plan.now.thresholds.now
        plan.now.fracs (length plan.now.thresholds.now + 1) table.new }
{
    for state in 0..plan.thresholds.len() as u32 + 1 {
        table.set_out(state, out_of(plan, state));
    }
}
