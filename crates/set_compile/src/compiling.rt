//! A formula's canonical table over all its declared variables: over its free ones by a step for each node (Boudet and Comon; for reals
//! Boigelot, Jodogne and Wolper), from there to all by one product, and from a table that reads lassos the vectors that are whole at the
//! integer variables.

ghost use Rattle.std.specs.Prelude.{◌≡◌, ◌<◌, ◌≤◌, ◌^◌, ◌⊎◌, ℕ, ℤ, List, IsTrue, ◌↔◌, map, length, IfOk, IfErr, OnOk};
ghost use Rattle.lash_model.specs.Meaning.{holds};
ghost use Rattle.lash_model.specs.Standing.{StandsFor};
ghost use Rattle.lash_model.specs.Sets.{set_of};
ghost use Rattle.part_laws.specs.CanonicalMixed.{IsCanonicalTable};
ghost use Rattle.formula_core.specs.Atoms.{HasLinearAtoms};
ghost use Rattle.formula_core.specs.Counts.{free_places};
ghost use Rattle.formula_core.specs.FewLetters.{FitsLetters, HasFewLetters};
ghost use Rattle.formula_core.specs.Shape.{formula_of};
ghost use Rattle.formula_core.specs.Variables.{sort_of};
ghost use Rattle.set_compile.specs.Compiling.{IsCompiled, IsRefused};
ghost use Rattle.set_compile.specs.Conditions.{IsOver, Binds, IsNarrow, mode_of as mode_of_model};
ghost use Rattle.set_compile.specs.Kinds.{Stands, IsShaped};
ghost use Rattle.set_compile.specs.Positions.{spread};
ghost use Rattle.set_compile.specs.Steps.{IsMade, IsWidened, IsWide, IsWideRefused, IsFirstRefused, HasHeavyPairs, always, all_tracks};

use crate::CompileError;
use crate::build::{Build, Mode};
use crate::declaring::declared;
use crate::joining::join;
use crate::nodes::part;
use digit_codes::Base;
use formula_core::{Formula, Linear, Sort, all_int, depends_on_free_places, free_vars};
use lash_io::Memory;
use product_ops::{Op, TrackMap};
use std::alloc::Global;
use weak_min::Canon;

/// What is true of all vectors: 0 is at most 0.
fn truth(alloc: Global) -> Formula
    ensures { formula_of result ≡ always }
{
    Formula::Le(Linear::new(alloc, 0))
}

/// The canonical table of what is true of all vectors, which has no tracks.
fn always_part(alloc: Global, build: &Build, places: u32) -> Result<Canon, CompileError>
    requires { build.now.limit ≤ 16777216 }
    ensures made { IfOk result (λ c. IsMade build.now places always c.table) }
    ensures stands { IfOk result (λ c. Stands c.table (set_of always (spread places (free_places always places)))) }
    ensures refused { IfErr result (λ e. (e ≡ CompileError.Memory → ⊥) → IsFirstRefused build.now places always e) }
{
    let formula = truth(alloc);
    match part(alloc, build, &formula, places) {
        Ok(made) => Ok(made),
        Err(error) => Err(error),
    }
}

/// All tracks, of which a formula's table reads those of its free variables, and another none.
fn wide_map(alloc: Global, formula: &Formula, places: u32) -> Result<TrackMap, Memory>
    ensures linear { OnOk result (HasLinearAtoms (formula_of formula.now)) }
    ensures tracks { IfOk result (λ m. m ≡ all_tracks (formula_of formula.now) places) }
{
    match free_vars(alloc, formula, places) {
        Ok(free) => Ok(TrackMap::new(places, free, Vec::new(alloc))),
        Err(Memory) => Err(Memory),
    }
}

/// The canonical table on all tracks, from the one on the tracks of the free variables.
fn widened(
    alloc: Global,
    build: &Build,
    formula: &Formula,
    made: &Canon,
    places: u32,
) -> Result<Canon, CompileError>
    requires letters { build.now.base ^ places ≤ 4096 }
    requires limit { build.now.limit ≤ 16777216 }
    requires made { IsMade build.now places (formula_of formula.now) made.now.table }
    requires stands { Stands made.now.table (set_of (formula_of formula.now) (spread places (free_places (formula_of formula.now) places))) }
    ensures widened { IfOk result (λ c. IsWidened build.now places (formula_of formula.now) c.table) }
    ensures stands { IfOk result (λ c. Stands c.table (holds (formula_of formula.now))) }
    ensures refused { IfErr result (λ e. (e ≡ CompileError.Memory → ⊥) → IsFirstRefused build.now places always e
        ⊎ ((e ≡ CompileError.Heavy) × HasHeavyPairs build.now places (formula_of formula.now) always (all_tracks (formula_of formula.now) places))) }
{
    depends_on_free_places();
    let whole = match always_part(alloc, build, places) {
        Ok(whole) => whole,
        Err(error) => return Err(error),
    };
    let map = match wide_map(alloc, formula, places) {
        Ok(map) => map,
        Err(Memory) => return Err(CompileError::Memory),
    };
    let limit = build.limit;
    match join(alloc, made, &whole, &map, Op::And, limit) {
        Ok(wide) => Ok(wide),
        Err(error) => Err(error),
    }
}

/// The canonical table of a formula on all tracks.
fn on_all_tracks(
    alloc: Global,
    build: &Build,
    formula: &Formula,
    places: u32,
) -> Result<Canon, CompileError>
    requires over { IsOver places (formula_of formula.now) }
    requires bound { Binds build.now.mode (formula_of formula.now) }
    requires narrow { IsNarrow build.now.base places (formula_of formula.now) }
    requires letters { build.now.base ^ places ≤ 4096 }
    requires limit { build.now.limit ≤ 16777216 }
    ensures shape { IfOk result (λ c. IsShaped build.now.mode build.now.base places c.table) }
    ensures made { IfOk result (λ c. IsWide build.now places (formula_of formula.now) c.table) }
    ensures stands { IfOk result (λ c. Stands c.table (holds (formula_of formula.now))) }
    ensures refused { IfErr result (λ e. (e ≡ CompileError.Memory → ⊥) → IsWideRefused build.now places (formula_of formula.now) e) }
{
    depends_on_free_places();
    let made = match part(alloc, build, formula, places) {
        Ok(made) => made,
        Err(error) => return Err(error),
    };
    if made.table().tracks() == places {
        return Ok(made);
    }
    match widened(alloc, build, formula, &made, places) {
        Ok(wide) => Ok(wide),
        Err(error) => Err(error),
    }
}

/// What the tables of a formula read.
fn mode_of(sorts: &[Sort], formula: &Formula) -> Mode
    ensures { result ≡ mode_of_model (map sort_of sorts.now) (formula_of formula.now) }
{
    if all_int(sorts, formula) {
        Mode::Whole
    } else {
        Mode::Mixed
    }
}

/// The canonical table of a formula's set over declared variables, by a step for each node, each within the limit of cells: a diagram if
/// all declared variables are integers, and else a table with fraction states.
///
/// As conditions, the formula is over the declared variables, its terms are inside the limits of coefficients and constants, its letters
/// are few, and the limit of cells is at most 16,777,216. The answer is that of the first step that is refused: `Heavy` exactly if it
/// passes the limit, and `NotWeak` exactly if it does not, binds a variable of a table that reads lassos, and no weak automaton has its
/// set, which the five words show. A bound variable that its body does not use costs no step. `Memory` comes if the program is out of
/// memory, and also if more than 2^32 - 1 variables are bound in one another.
pub fn compile(
    alloc: Global,
    base: Base,
    sorts: &[Sort],
    formula: &Formula,
    limit: u64,
) -> Result<Canon, CompileError>
    requires over { IsOver (length sorts.now) (formula_of formula.now) }
    requires letters { FitsLetters base (formula_of formula.now) (length sorts.now) }
    requires limit { limit ≤ 16777216 }
    ensures stands { IfOk result (λ c. StandsFor c.table (map sort_of sorts.now) (formula_of formula.now)) }
    ensures canonical { IfOk result (λ c. IsCanonicalTable c.table) }
    ensures base { IfOk result (λ c. c.table.base ≡ base) }
    ensures tracks { IfOk result (λ c. c.table.tracks ≡ length sorts.now) }
    ensures made { IfOk result (λ c. IsCompiled base limit (map sort_of sorts.now) (formula_of formula.now) c.table) }
    ensures refused { IfErr result (λ e. (e ≡ CompileError.Memory → ⊥) → IsRefused base limit (map sort_of sorts.now) (formula_of formula.now) e) }
{
    let _radix = base.radix();
    let mode = mode_of(sorts, formula);
    let build = Build { mode, base, limit };
    let places = sorts.len() as u32;
    let wide = match on_all_tracks(alloc, &build, formula, places) {
        Ok(wide) => wide,
        Err(error) => return Err(error),
    };
    match mode {
        Mode::Whole => Ok(wide),
        Mode::Mixed => declared(alloc, &build, sorts, wide),
    }
}
