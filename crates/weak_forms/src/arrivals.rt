//! The least way to a torn state: integer states in the order of their least paths, then fraction states from the outputs of these.

ghost use Rattle.std.specs.Prelude.{◌≡◌, ◌<◌, ◌+◌, ◌*◌, ◌^◌, All, length, slice_index, IfOk, IfNone, IfSome};
ghost use Rattle.graph_laws.specs.Walks.{go};
ghost use Rattle.graph_laws.specs.Exploring.{IsExplored};
ghost use Rattle.lash_model.specs.Tables.{letters, ints, fracs, IsTable};
ghost use Rattle.least_paths.specs.Nets.{int_net};
ghost use Rattle.least_paths.specs.Searches.{row_steps};
ghost use Rattle.marked_laws.specs.Weakening.{IsTorn};
ghost use Rattle.weak_forms.specs.Finding.{keyed, IsRead};
ghost use Rattle.weak_forms.specs.Ways.{IsLeastWay, LeadsToNone};
ghost use Rattle.weak_forms.specs.Marking.{TellTorn};
ghost use Rattle.weak_forms.specs.Words.{AreOuts, IsLeastArrival};

use crate::finding::{Drawn, Found, Reached, find};
use crate::ways::least_way;
use components::frac_rows_of;
use lash_io::Memory;
use least_paths::{Trail, least_path};
use packed_cells::Plain;
use std::alloc::Global;
use step_tables::Table;

/// The output of an integer state, which is a fraction state.
fn fraction_out(table: &Table<Plain>, state: u32) -> u32
    requires fractions { 0 < fracs table.now.table }
    requires state { state < ints table.now.table }
    ensures value { result ≡ slice_index table.now.table.outs state }
    ensures below { result < fracs table.now.table }
{
    table.out(state)
}

/// The outputs of the integer states that were found, in order. The one error is Memory: out of memory.
fn outs_of(alloc: Global, table: &Table<Plain>, found: &Found) -> Result<Vec<u32>, Memory>
    requires fractions { 0 < fracs table.now.table }
    requires states { All (λ q. q < ints table.now.table) found.now.order }
    ensures outs { IfOk result (λ outs. AreOuts table.now.table found.now.order outs.items (length found.now.order)) }
    ensures inside { IfOk result (λ outs. All (λ q. q < fracs table.now.table) outs.items) }
{
    let mut outs = Vec::new(alloc);
    for at in 0..found.len() {
        match outs.push(fraction_out(table, found.state(at))) {
            Ok(()) => {}
            Err(_) => return Err(Memory),
        }
    }
    Ok(outs)
}

/// The output at a position.
fn output_at(outs: &[u32], at: u32) -> u32
    requires { at < length outs.now }
    ensures { result ≡ slice_index outs.now at }
{
    outs[at as usize]
}

/// A sign vector and a whole part as a path, a stem, and the fraction state to which they lead.
#[derive(Drop)]
pub(crate) struct Arrival {
    pub pair: Trail,
    pub stem: Vec<u32>,
    pub state: u32,
}

/// The least way from an output to a torn state. None if no way leads to one. The one error is Memory: out of memory.
fn least_stem(
    alloc: Global,
    table: &Table<Plain>,
    goals: &[bool],
    outs: &[u32],
) -> Result<Option<Trail>, Memory>
    requires goals { TellTorn table.now.table (fracs table.now.table) goals.now }
    requires outs { All (λ q. q < fracs table.now.table) outs.now }
    requires few { length outs.now < 2 ^ 32 }
    ensures none { IfOk result (λ way. IfNone way (LeadsToNone (record { starts = outs.now; rows = table.now.table.frac_rows; width = letters table.now.table; states = fracs table.now.table }) goals.now)) }
    ensures some { IfOk result (λ way. IfSome way (λ x. IsLeastWay (record { starts = outs.now; rows = table.now.table.frac_rows; width = letters table.now.table; states = fracs table.now.table }) goals.now (record { start = x.start; word = x.letters.items }))) }
{
    let rows = match frac_rows_of(alloc, table) {
        Ok(rows) => rows,
        Err(Memory) => return Err(Memory),
    };
    let graph = Drawn::new(outs, rows.as_slice(), table.letters(), table.fracs());
    match least_way(alloc, &graph, goals) {
        Ok(way) => Ok(way),
        Err(Memory) => Err(Memory),
    }
}

/// The least way to a torn state. None if no torn state is reached. The one error is Memory: out of memory.
pub(crate) fn least_arrival(
    alloc: Global,
    table: &Table<Plain>,
    goals: &[bool],
) -> Result<Option<Arrival>, Memory>
    requires fractions { 0 < fracs table.now.table }
    requires goals { TellTorn table.now.table (fracs table.now.table) goals.now }
    ensures none { IfOk result (λ a. IfNone a (IsTorn table.now.table → ⊥)) }
    ensures some { IfOk result (λ a. IfSome a (λ x. IsLeastArrival table.now.table x.state x.pair.start x.pair.letters.items x.stem.items)) }
    ensures state { IfOk result (λ a. IfSome a (λ x. x.state < fracs table.now.table)) }
{
    let _letters = table.letters();
    let found = match find(alloc, table) {
        Ok(found) => found,
        Err(Memory) => return Err(Memory),
    };
    let outs = match outs_of(alloc, table, &found) {
        Ok(outs) => outs,
        Err(Memory) => return Err(Memory),
    };
    let stem = match least_stem(alloc, table, goals, outs.as_slice()) {
        Ok(stem) => stem,
        Err(Memory) => return Err(Memory),
    };
    let way = match stem {
        Some(way) => way,
        None => return Ok(None),
    };
    let state = table.run_frac(
        output_at(outs.as_slice(), way.start),
        way.letters.as_slice(),
    );
    match least_path(alloc, &Reached::new(&found), way.start) {
        Ok(pair) => Ok(Some(Arrival {
            pair,
            stem: way.letters,
            state,
        })),
        Err(Memory) => Err(Memory),
    }
}
