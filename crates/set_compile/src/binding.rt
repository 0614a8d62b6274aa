//! The step of a bound variable (Büchi; for reals Boigelot, Jodogne and Wolper): its body's table forgets the variable's track, and is made
//! canonical.

ghost use Rattle.std.specs.Prelude.{◌≡◌, ◌+◌, ◌-◌, ◌<◌, ◌≤◌, List, ℤ, length, IfOk, IfErr, OnOk};
ghost use Rattle.lash_model.specs.Formulas.{Int, Exists};
ghost use Rattle.lash_model.specs.Tables.{IsDiagram, fracs};
ghost use Rattle.lash_model.specs.Sets.{set_of};
ghost use Rattle.formula_core.specs.Atoms.{HasLinearAtoms};
ghost use Rattle.formula_core.specs.Counts.{free_places};
ghost use Rattle.formula_core.specs.Shape.{formula_of};
ghost use Rattle.formula_core.specs.Variables.{sort_of};
ghost use Rattle.subset_build.specs.Projection.{IsHeavyProjection};
ghost use Rattle.set_compile.specs.Kinds.{Stands, IsShaped};
ghost use Rattle.set_compile.specs.Positions.{spread};
ghost use Rattle.set_compile.specs.Steps.{IsOfSubsets, IsOfBreakpoints, IsForgotten, IsProjectionRefused, IsForgettingRefused, IsMade, IsFirstRefused};

use crate::CompileError;
use crate::build::{Build, Mode};
use crate::minimizing::minimized;
use crate::wholes::with_whole;
use breakpoint_build::{RealError, project_real};
use formula_core::{Formula, Sort, depends_on_free_places, free_vars};
use lash_io::Memory;
use std::alloc::Global;
use step_tables::BuildError;
use subset_build::project_int;
use weak_min::Canon;

/// The canonical table that forgets a track of the given diagram. The limit of cells is at most 16,777,216. `Heavy` comes exactly if the
/// subsets pass the limit.
fn projected(alloc: Global, body: &Canon, track: u32, limit: u64) -> Result<Canon, CompileError>
    requires diagram { IsDiagram body.now.table }
    requires track { track < body.now.table.tracks }
    requires limit { limit ≤ 16777216 }
    ensures shape { IfOk result (λ c. IsShaped Mode.Whole body.now.table.base (body.now.table.tracks - 1) c.table) }
    ensures made { IfOk result (λ c. IsOfSubsets body.now.table track limit c.table) }
    ensures heavy { IfErr result (λ e. e ≡ CompileError.Heavy → IsHeavyProjection body.now.table track limit) }
    ensures plain { IfErr result (λ e. (e ≡ CompileError.Memory → ⊥) → e ≡ CompileError.Heavy) }
{
    let table = match project_int(alloc, body.table(), track, limit) {
        Ok(table) => table,
        Err(BuildError::Heavy) => return Err(CompileError::Heavy),
        Err(BuildError::Memory) => return Err(CompileError::Memory),
    };
    match minimized(alloc, &table) {
        Ok(made) => Ok(made),
        Err(error) => Err(error),
    }
}

/// The canonical table that forgets a track of a table with fraction states. The limit of cells is at most 16,777,216. `Heavy` comes exactly
/// if the sets and breakpoint states pass the limit, and `NotWeak` exactly if they do not and have no weak form.
fn forgotten(alloc: Global, body: &Canon, track: u32, limit: u64) -> Result<Canon, CompileError>
    requires fractions { 0 < fracs body.now.table }
    requires track { track < body.now.table.tracks }
    requires limit { limit ≤ 16777216 }
    ensures shape { IfOk result (λ c. IsShaped Mode.Mixed body.now.table.base (body.now.table.tracks - 1) c.table) }
    ensures made { IfOk result (λ c. IsOfBreakpoints body.now.table track limit c.table) }
    ensures refused { IfErr result (λ e. (e ≡ CompileError.Memory → ⊥) → IsProjectionRefused body.now.table track limit e) }
{
    let table = match project_real(alloc, body.table(), track, limit) {
        Ok(table) => table,
        Err(RealError::Heavy) => return Err(CompileError::Heavy),
        Err(
            RealError::NotWeak {
                sign,
                whole,
                stem,
                accept,
                reject,
            },
        ) => {
            return Err(CompileError::NotWeak {
                sign,
                whole,
                stem,
                accept,
                reject,
            });
        }
        Err(RealError::Memory) => return Err(CompileError::Memory),
    };
    match minimized(alloc, &table) {
        Ok(made) => Ok(made),
        Err(error) => Err(error),
    }
}

/// The canonical table that forgets the last track of a table with fraction states, whose variable is of a sort: an integer is made whole
/// before.
fn forgotten_of_sort(
    alloc: Global,
    build: &Build,
    sort: Sort,
    body: &Canon,
    track: u32,
) -> Result<Canon, CompileError>
    requires mode { build.now.mode ≡ Mode.Mixed }
    requires shape { IsShaped build.now.mode build.now.base (track + 1) body.now.table }
    requires limit { build.now.limit ≤ 16777216 }
    ensures shape { IfOk result (λ c. IsShaped build.now.mode build.now.base track c.table) }
    ensures made { IfOk result (λ c. IsForgotten Mode.Mixed (sort_of sort) build.now track body.now.table c.table) }
    ensures refused { IfErr result (λ e. (e ≡ CompileError.Memory → ⊥) → IsForgettingRefused Mode.Mixed (sort_of sort) build.now track body.now.table e) }
{
    let limit = build.limit;
    match sort {
        Sort::Real => forgotten(alloc, body, track, limit),
        Sort::Int => match with_whole(alloc, build, body, track) {
            Ok(whole) => forgotten(alloc, &whole, track, limit),
            Err(error) => Err(error),
        },
    }
}

/// The canonical table that forgets the last track of a table, whose variable is of a sort.
fn without_track(
    alloc: Global,
    build: &Build,
    sort: Sort,
    body: &Canon,
    track: u32,
) -> Result<Canon, CompileError>
    requires shape { IsShaped build.now.mode build.now.base (track + 1) body.now.table }
    requires limit { build.now.limit ≤ 16777216 }
    ensures shape { IfOk result (λ c. IsShaped build.now.mode build.now.base track c.table) }
    ensures made { IfOk result (λ c. IsForgotten build.now.mode (sort_of sort) build.now track body.now.table c.table) }
    ensures refused { IfErr result (λ e. (e ≡ CompileError.Memory → ⊥) → IsForgettingRefused build.now.mode (sort_of sort) build.now track body.now.table e) }
{
    let limit = build.limit;
    match build.mode {
        Mode::Whole => projected(alloc, body, track, limit),
        Mode::Mixed => forgotten_of_sort(alloc, build, sort, body, track),
    }
}

/// The canonical table of a formula over so many variables that binds one, at the next place, from its body's table. If the tables read
/// words, it is an integer. The limit of cells is at most 16,777,216. The variable's track is the last of the body's; a variable that the
/// body does not use has none, and the body's table is the formula's. `Heavy` comes exactly if a step passes the limit, and `NotWeak`
/// exactly if none does and no weak automaton has the set.
pub fn bound(
    alloc: Global,
    build: &Build,
    sort: Sort,
    inner: &Formula,
    body: Canon,
    place: u32,
) -> Result<Canon, CompileError>
    requires sort { build.now.mode ≡ Mode.Whole → sort_of sort ≡ Int }
    requires made { IsMade build.now (place + 1) (formula_of inner.now) body.table }
    requires stands { Stands body.table (set_of (formula_of inner.now) (spread (place + 1) (free_places (formula_of inner.now) (place + 1)))) }
    requires limit { build.now.limit ≤ 16777216 }
    ensures made { IfOk result (λ c. IsMade build.now place (Exists (sort_of sort) (formula_of inner.now)) c.table) }
    ensures stands { IfOk result (λ c. Stands c.table (set_of (Exists (sort_of sort) (formula_of inner.now)) (spread place (free_places (Exists (sort_of sort) (formula_of inner.now)) place)))) }
    ensures refused { IfErr result (λ e. (e ≡ CompileError.Memory → ⊥) → IsFirstRefused build.now place (Exists (sort_of sort) (formula_of inner.now)) e) }
{
    depends_on_free_places();
    let free = match free_vars(alloc, inner, place) {
        Ok(free) => free,
        Err(Memory) => return Err(CompileError::Memory),
    };
    let track = free.len() as u32;
    if body.table().tracks() == track {
        return Ok(body);
    }
    match without_track(alloc, build, sort, &body, track) {
        Ok(made) => Ok(made),
        Err(error) => Err(error),
    }
}
