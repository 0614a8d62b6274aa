//! The marked table of an automaton of which a track is forgotten: the sets of its integer states, and the breakpoint states to which they
//! lead. Costs for each of them and each letter the targets of the members on all digits, and their sorting.

ghost use Rattle.std.specs.Prelude.{◌≡◌, ◌<◌, ◌≤◌, IfOk, IfErr};
ghost use Rattle.lash_model.specs.Tables.{IsTable, fracs};
ghost use Rattle.breakpoint_laws.specs.Breakpoints.{IsBreakpointTable, IsHeavyRealProjection};

use crate::breakpoints::Breakpoints;
use crate::colours::OwingColours;
use components::frac_rows_of;
use lash_io::Memory;
use packed_cells::{Cells, Plain};
use std::alloc::Global;
use step_tables::{BuildError, ExploreError, Table, explore};
use subset_build::{SetSteps, explored_subsets, sign_closure};

/// The breakpoint table of an automaton with fraction states along one of its tracks. The limit of cells is at most 16,777,216. `Heavy`
/// comes exactly if the reached sets of integer states and the reached breakpoint states together have more cells than the limit: for
/// each the number of letters, one, and its members, and of a breakpoint state also those that owe.
pub(crate) fn marked_table<C: Cells>(
    alloc: Global,
    table: &Table<C>,
    track: u32,
    limit: u64,
) -> Result<Table<Plain>, BuildError>
    requires fractions { 0 < fracs table.now.table }
    requires track { track < table.now.table.tracks }
    requires limit { limit ≤ 16777216 }
    ensures table { IfOk result (λ u. IsTable u.table) }
    ensures fractions { IfOk result (λ u. 0 < fracs u.table) }
    ensures breakpoints { IfOk result (λ u. IsBreakpointTable table.now.table track limit u.table) }
    ensures heavy { IfErr result (λ e. e ≡ BuildError.Heavy → IsHeavyRealProjection table.now.table track limit) }
{
    let _letters = table.letters();
    let starts = match sign_closure(alloc, table, track) {
        Ok(starts) => starts,
        Err(Memory) => return Err(BuildError::Memory),
    };
    let sets = match explored_subsets(alloc, table, track, &starts, limit) {
        Ok(sets) => sets,
        Err(error) => return Err(error),
    };
    let rows = match frac_rows_of(alloc, table) {
        Ok(rows) => Plain::of(rows),
        Err(Memory) => return Err(BuildError::Memory),
    };
    let states = table.fracs();
    let steps = SetSteps::new(&rows, table.base(), table.tracks(), track, states);
    let mut machine = Breakpoints::new(alloc, table, steps, &sets);
    let keys = match explore(alloc, &mut machine, limit - sets.cells()) {
        Ok(keys) => keys,
        Err(ExploreError::Heavy) => return Err(BuildError::Heavy),
        Err(ExploreError::Memory) => return Err(BuildError::Memory),
    };
    let colours = OwingColours { states };
    let tracks = table.tracks() - 1;
    match Table::of_two_explored(alloc, table.base(), tracks, &sets, &keys, &colours) {
        Ok(made) => Ok(made),
        Err(Memory) => Err(BuildError::Memory),
    }
}
