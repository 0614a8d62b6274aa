//! The steps of the integer variables of a table that reads lassos: the product with the table of whole numbers on each one's track (own).

ghost use Rattle.std.specs.Prelude.{◌≡◌, ◌<◌, ◌≤◌, ◌^◌, map, length, IfOk, IfErr};
ghost use Rattle.formula_core.specs.Variables.{sort_of};
ghost use Rattle.set_compile.specs.Compiling.{AreWholeFrom, IsHeavyFrom};
ghost use Rattle.set_compile.specs.Kinds.{IsShaped};
ghost use Rattle.set_compile.specs.Steps.{whole_cells, IsOfWholes, with_track, IsWholeAt, IsHeavyAt};

use crate::CompileError;
use crate::build::{Build, Mode};
use crate::joining::join;
use crate::minimizing::minimized;
use formula_core::Sort;
use lash_io::Memory;
use linear_atoms::is_int;
use product_ops::{Op, TrackMap, all_tracks};
use std::alloc::Global;
use step_tables::BuildError;
use weak_min::Canon;

/// The canonical table of whole numbers, over one track. `Heavy` comes exactly if its cells pass the limit.
fn whole_numbers(alloc: Global, build: &Build) -> Result<Canon, CompileError>
    requires { build.now.mode ≡ Mode.Mixed }
    ensures made { IfOk result (λ c. IsOfWholes build.now c.table) }
    ensures heavy { IfErr result (λ e. e ≡ CompileError.Heavy → build.now.limit < whole_cells build.now.base) }
    ensures plain { IfErr result (λ e. (e ≡ CompileError.Memory → ⊥) → e ≡ CompileError.Heavy) }
{
    let Build { base, limit, .. } = *build;
    let table = match is_int(alloc, base, limit) {
        Ok(table) => table,
        Err(BuildError::Heavy) => return Err(CompileError::Heavy),
        Err(BuildError::Memory) => return Err(CompileError::Memory),
    };
    match minimized(alloc, &table) {
        Ok(made) => Ok(made),
        Err(error) => Err(error),
    }
}

/// All tracks for the one table, and the track at a place for another.
fn track_map(alloc: Global, tracks: u32, place: u32) -> Result<TrackMap, Memory>
    requires { place < tracks }
    ensures { IfOk result (λ m. m ≡ with_track tracks place) }
{
    let all = match all_tracks(alloc, tracks) {
        Ok(all) => all,
        Err(Memory) => return Err(Memory),
    };
    match Vec::from_slice(alloc, &[place]) {
        Ok(one) => Ok(TrackMap::new(tracks, all, one)),
        Err(_) => Err(Memory),
    }
}

/// The canonical table of the vectors of a table whose entry at a place is whole. `Heavy` comes exactly if the table of whole numbers or
/// its product with the given one passes the limit.
pub(crate) fn with_whole(
    alloc: Global,
    build: &Build,
    made: &Canon,
    place: u32,
) -> Result<Canon, CompileError>
    requires mode { build.now.mode ≡ Mode.Mixed }
    requires shape { IsShaped build.now.mode build.now.base made.now.table.tracks made.now.table }
    requires place { place < made.now.table.tracks }
    requires letters { build.now.base ^ made.now.table.tracks ≤ 4096 }
    requires limit { build.now.limit ≤ 16777216 }
    ensures made { IfOk result (λ c. IsWholeAt build.now made.now.table.tracks place made.now.table c.table) }
    ensures heavy { IfErr result (λ e. e ≡ CompileError.Heavy → IsHeavyAt build.now made.now.table.tracks place made.now.table) }
    ensures plain { IfErr result (λ e. (e ≡ CompileError.Memory → ⊥) → e ≡ CompileError.Heavy) }
{
    let wholes = match whole_numbers(alloc, build) {
        Ok(wholes) => wholes,
        Err(error) => return Err(error),
    };
    let tracks = made.table().tracks();
    let map = match track_map(alloc, tracks, place) {
        Ok(map) => map,
        Err(Memory) => return Err(CompileError::Memory),
    };
    let limit = build.limit;
    match join(alloc, made, &wholes, &map, Op::And, limit) {
        Ok(whole) => Ok(whole),
        Err(error) => Err(error),
    }
}

/// The canonical table of the vectors of a table whose entry at a place is of a sort. `Heavy` comes exactly if the sort is `Int` and one
/// of the two steps passes the limit.
fn of_sort(
    alloc: Global,
    build: &Build,
    sort: Sort,
    made: Canon,
    place: u32,
) -> Result<Canon, CompileError>
    requires mode { build.now.mode ≡ Mode.Mixed }
    requires shape { IsShaped build.now.mode build.now.base made.table.tracks made.table }
    requires place { place < made.table.tracks }
    requires letters { build.now.base ^ made.table.tracks ≤ 4096 }
    requires limit { build.now.limit ≤ 16777216 }
    ensures whole { sort ≡ Sort.Int → IfOk result (λ c. IsWholeAt build.now made.table.tracks place made.table c.table) }
    ensures same { sort ≡ Sort.Real → IfOk result (λ c. c.table ≡ made.table) }
    ensures integer { IfErr result (λ _. sort ≡ Sort.Int) }
    ensures heavy { IfErr result (λ e. e ≡ CompileError.Heavy → IsHeavyAt build.now made.table.tracks place made.table) }
    ensures plain { IfErr result (λ e. (e ≡ CompileError.Memory → ⊥) → e ≡ CompileError.Heavy) }
{
    match sort {
        Sort::Int => with_whole(alloc, build, &made, place),
        Sort::Real => Ok(made),
    }
}

/// The canonical table of the vectors of a table that are whole at the places of the integers among the sorts, by two steps for each of
/// them. `Heavy` comes exactly if a step passes the limit, at the first that does.
pub fn with_wholes(
    alloc: Global,
    build: &Build,
    sorts: &[Sort],
    wide: Canon,
) -> Result<Canon, CompileError>
    requires mode { build.now.mode ≡ Mode.Mixed }
    requires shape { IsShaped build.now.mode build.now.base (length sorts.now) wide.table }
    requires letters { build.now.base ^ length sorts.now ≤ 4096 }
    requires limit { build.now.limit ≤ 16777216 }
    ensures made { IfOk result (λ c. AreWholeFrom build.now (length sorts.now) 0 (map sort_of sorts.now) wide.table c.table) }
    ensures shape { IfOk result (λ c. IsShaped build.now.mode build.now.base (length sorts.now) c.table) }
    ensures heavy { IfErr result (λ e. e ≡ CompileError.Heavy → IsHeavyFrom build.now (length sorts.now) 0 (map sort_of sorts.now) wide.table) }
    ensures plain { IfErr result (λ e. (e ≡ CompileError.Memory → ⊥) → e ≡ CompileError.Heavy) }
{
    let mut made = wide;
    for (place, sort) in sorts.iter().enumerate() {
        made = match of_sort(alloc, build, *sort, made, place as u32) {
            Ok(next) => next,
            Err(error) => return Err(error),
        };
    }
    Ok(made)
}
