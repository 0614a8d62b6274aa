//! The projection of a diagram along a track (the subset construction of Rabin and Scott), over exactly the sets of states that are
//! reached. Costs for each set and letter the targets of the members on all digits, and their sorting.

ghost use Rattle.std.specs.Prelude.{◌≡◌, ◌+◌, ◌*◌, ◌^◌, ◌<◌, ◌≤◌, ℕ, ℤ, List, length, IfOk, IfErr};
ghost use Rattle.graph_laws.specs.Exploring.{IsExplored, IsHeavy};
ghost use Rattle.lash_model.specs.Formulas.{Formula};
ghost use Rattle.lash_model.specs.Standing.{StandsForWhole};
ghost use Rattle.lash_model.specs.Tables.{IsTable, IsDiagram};
ghost use Rattle.lash_model.specs.Sets.{set_of, bound_at};
ghost use Rattle.subset_build.specs.Projection.{kept, int_transitions, subsets, AreStartSets, IsSubsetTable, IsHeavyProjection, AcceptsSome};

use crate::outputs::SetOutputs;
use crate::subsets::Subsets;
use crate::{StartSets, sign_closure};
use lash_io::Memory;
use packed_cells::{Cells, Plain};
use std::alloc::Global;
use step_tables::{BuildError, ExploreError, Explored, Table, explore};

/// The sets of states in which a table's integer part can be, if the digits of a track are forgotten, from the start sets that
/// `sign_closure` finds, numbered by their least paths. The track is one of the table's, and the limit of cells is at most 16,777,216.
/// `Heavy` comes exactly if these sets have more cells than the limit: for each the number of letters of the other tracks, one, and its
/// members. `Memory` comes if the program is out of memory.
pub fn explored_subsets<C: Cells>(
    alloc: Global,
    table: &Table<C>,
    track: u32,
    starts: &StartSets,
    limit: u64,
) -> Result<Explored, BuildError>
    requires track { track < table.now.table.tracks }
    requires starts { AreStartSets table.now.table track starts.now }
    requires limit { limit ≤ 16777216 }
    ensures explored { IfOk result (λ k. IsExplored (subsets (int_transitions table.now.table) track starts.now) limit k) }
    ensures heavy { IfErr result (λ e. e ≡ BuildError.Heavy → IsHeavy (subsets (int_transitions table.now.table) track starts.now) limit) }
{
    let _letters = table.letters();
    let mut subsets = Subsets::new(table, track, starts);
    match explore(alloc, &mut subsets, limit) {
        Ok(found) => Ok(found),
        Err(ExploreError::Heavy) => Err(BuildError::Heavy),
        Err(ExploreError::Memory) => Err(BuildError::Memory),
    }
}

/// The diagram that forgets a track: it accepts a word where the given diagram accepts some word of all tracks over it, with more sign
/// letters in front, any digits and either sign on the track. If the given diagram stands for a set, the result stands for the set in
/// which the track's variable is bound by a whole number. The track is one of the diagram's, and the limit of cells is at most
/// 16,777,216. `Heavy` comes exactly where the sets of states that are reached have more cells than the limit: for each the number of
/// letters, one, and its members.
pub fn project_int<C: Cells>(
    alloc: Global,
    table: &Table<C>,
    track: u32,
    limit: u64,
) -> Result<Table<Plain>, BuildError>
    requires diagram { IsDiagram table.now.table }
    requires track { track < table.now.table.tracks }
    requires limit { limit ≤ 16777216 }
    ensures table { IfOk result (λ u. IsTable u.table) }
    ensures diagram { IfOk result (λ u. IsDiagram u.table) }
    ensures base { IfOk result (λ u. u.table.base ≡ table.now.table.base) }
    ensures tracks { IfOk result (λ u. u.table.tracks + 1 ≡ table.now.table.tracks) }
    ensures words { IfOk result (λ u. AcceptsSome table.now.table track u.table) }
    ensures stands { IfOk result (λ u. (f : Formula) (s : List ℤ → List ℤ) → StandsForWhole table.now.table (set_of f s) → StandsForWhole u.table (bound_at track (set_of f s))) }
    ensures subsets { IfOk result (λ u. IsSubsetTable table.now.table track limit u.table) }
    ensures heavy { IfErr result (λ e. e ≡ BuildError.Heavy → IsHeavyProjection table.now.table track limit) }
{
    let _letters = table.letters();
    let starts = match sign_closure(alloc, table, track) {
        Ok(starts) => starts,
        Err(Memory) => return Err(BuildError::Memory),
    };
    let found = match explored_subsets(alloc, table, track, &starts, limit) {
        Ok(found) => found,
        Err(error) => return Err(error),
    };
    let outputs = SetOutputs { table };
    match Table::of_explored(alloc, table.base(), table.tracks() - 1, &found, &outputs) {
        Ok(made) => Ok(made),
        Err(Memory) => Err(BuildError::Memory),
    }
}
