//! Whether one set is a part of another: whether the difference of their tables (the synchronous product) accepts nothing. Costs a
//! look-up for each pair of states and letter, and for tables with fraction states a canonical table of the difference.

ghost use Rattle.std.specs.Prelude.{◌≡◌, ◌↔◌, ◌≤◌, ◌<◌, ℕ, List, length, IsTrue, OnOk, IfOk, IfErr, slice_index};
ghost use Rattle.lash_model.specs.Formulas.{Sort, Formula};
ghost use Rattle.lash_model.specs.Standing.{StandsFor};
ghost use Rattle.lash_model.specs.Tables.{letters, ints, fracs, IsDiagram};
ghost use Rattle.part_laws.specs.CanonicalMixed.{IsCanonicalTable, fraction_graph};
ghost use Rattle.part_laws.specs.Graphs.{IsWeak};
ghost use Rattle.product_ops.specs.Products.{HaveSameKind, IsHeavyProduct};
ghost use Rattle.solution_pick.specs.FractionSolutions.{AcceptsNoLasso};
ghost use Rattle.set_answers.specs.Agreement.{Includes};
ghost use Rattle.set_answers.specs.Differences.{all_tracks, AreWithin, SaysNo};

use lash_io::Memory;
use packed_cells::{Packed, Plain};
use product_ops::{Op, TrackMap, product};
use solution_pick::solution;
use std::alloc::Global;
use step_tables::{BuildError, Table};
use weak_min::{Canon, canonical};

/// Whether each solution of the first table's set is one of the second's. The tables are of one kind, both diagrams or both with fraction
/// states, and have one base and one number of tracks, and the limit of cells is at most 16,777,216.
///
/// `Heavy` comes exactly if the pairs of states that are reached have more cells than the limit: for each the number of letters,
/// one, and its two entries. `Memory` comes if the program is out of memory.
pub fn subset(alloc: Global, left: &Canon, right: &Canon, limit: u64) -> Result<bool, BuildError>
    requires kinds { HaveSameKind left.now.table right.now.table }
    requires base { left.now.table.base ≡ right.now.table.base }
    requires tracks { left.now.table.tracks ≡ right.now.table.tracks }
    requires limit { limit ≤ 16777216 }
    ensures pairs { OnOk result (AreWithin left.now.table right.now.table limit) }
    ensures heavy { IfErr result (λ e. e ≡ BuildError.Heavy → IsHeavyProduct left.now.table right.now.table (all_tracks left.now.table.tracks) limit) }
    ensures includes { IfOk result (λ yes. (sorts : List Sort) (f g : Formula) → left.now.table.tracks ≡ length sorts → StandsFor left.now.table sorts f → StandsFor right.now.table sorts g → (IsTrue yes ↔ Includes sorts f g)) }
{
    subset_of(alloc, left.table(), right.table(), limit)
}

/// The same of tables that are known to be canonical.
fn subset_of(
    alloc: Global,
    left: &Table<Packed>,
    right: &Table<Packed>,
    limit: u64,
) -> Result<bool, BuildError>
    requires left { IsCanonicalTable left.now.table }
    requires right { IsCanonicalTable right.now.table }
    requires kinds { HaveSameKind left.now.table right.now.table }
    requires base { left.now.table.base ≡ right.now.table.base }
    requires tracks { left.now.table.tracks ≡ right.now.table.tracks }
    requires limit { limit ≤ 16777216 }
    ensures pairs { OnOk result (AreWithin left.now.table right.now.table limit) }
    ensures heavy { IfErr result (λ e. e ≡ BuildError.Heavy → IsHeavyProduct left.now.table right.now.table (all_tracks left.now.table.tracks) limit) }
    ensures includes { IfOk result (λ yes. (sorts : List Sort) (f g : Formula) → left.now.table.tracks ≡ length sorts → StandsFor left.now.table sorts f → StandsFor right.now.table sorts g → (IsTrue yes ↔ Includes sorts f g)) }
{
    let map = match shared_tracks(alloc, left.tracks()) {
        Ok(map) => map,
        Err(Memory) => return Err(BuildError::Memory),
    };
    let difference = product(alloc, left, right, &map, Op::AndNot, limit)?;
    match accepts_nothing(alloc, &difference) {
        Ok(nothing) => Ok(nothing),
        Err(Memory) => Err(BuildError::Memory),
    }
}

/// Both operands read all tracks.
fn shared_tracks(alloc: Global, tracks: u32) -> Result<TrackMap, Memory>
    ensures { IfOk result (λ m. m ≡ all_tracks tracks) }
{
    let left = match product_ops::all_tracks(alloc, tracks) {
        Ok(left) => left,
        Err(Memory) => return Err(Memory),
    };
    match product_ops::all_tracks(alloc, tracks) {
        Ok(right) => Ok(TrackMap::new(tracks, left, right)),
        Err(Memory) => Err(Memory),
    }
}

/// Whether a table in which all states are reached accepts nothing: if it is a diagram, whether no state's output is yes, and if it has
/// fraction states, whether it accepts no lasso. The one error is Memory: out of memory.
fn accepts_nothing(alloc: Global, table: &Table<Plain>) -> Result<bool, Memory>
    requires { 0 < fracs table.now.table → IsWeak (letters table.now.table) (fraction_graph table.now.table) }
    ensures words { IsDiagram table.now.table → IfOk result (λ nothing. IsTrue nothing ↔ SaysNo table.now.table) }
    ensures lassos { 0 < fracs table.now.table → IfOk result (λ nothing. IsTrue nothing ↔ AcceptsNoLasso table.now.table) }
{
    if table.fracs() == 0 {
        return Ok(says_no(table));
    }
    accepts_no_lasso(alloc, table)
}

/// Whether no state's output is yes.
fn says_no(table: &Table<Plain>) -> bool
    ensures { IsTrue result ↔ SaysNo table.now.table }
{
    for state in 0..table.ints() {
        if table.out(state) == 1 {
            return false;
        }
    }
    true
}

/// Whether a weak table with fraction states accepts no lasso: whether its canonical table has no solution. The one error is Memory: out of
/// memory.
fn accepts_no_lasso(alloc: Global, table: &Table<Plain>) -> Result<bool, Memory>
    requires fractions { 0 < fracs table.now.table }
    requires weak { IsWeak (letters table.now.table) (fraction_graph table.now.table) }
    ensures { IfOk result (λ none. IsTrue none ↔ AcceptsNoLasso table.now.table) }
{
    let canon = canonical(alloc, table)?;
    match solution(alloc, &canon) {
        Ok(found) => Ok(found.is_none()),
        Err(Memory) => Err(Memory),
    }
}
