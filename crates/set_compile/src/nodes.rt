//! The table of a formula over its free variables: one step for each node, its parts first and the left one before the right one. A bound
//! variable that its body does not use costs no step.

ghost use Rattle.std.specs.Prelude.{◌≡◌, ◌≤◌, ◌^◌, ℕ, ℤ, List, IsTrue, length, IfOk, IfErr, OnOk};
ghost use Rattle.lash_model.specs.Formulas.{Formula as Set, And, Or};
ghost use Rattle.lash_model.specs.Sets.{set_of};
ghost use Rattle.formula_core.specs.Atoms.{HasLinearAtoms};
ghost use Rattle.formula_core.specs.Counts.{uses, free_places};
ghost use Rattle.formula_core.specs.Shape.{formula_of};
ghost use Rattle.product_ops.specs.Operations.{joined as joined_sets};
ghost use Rattle.product_ops.specs.Products.{HaveSameKind, IsHeavyProduct};
ghost use Rattle.set_compile.specs.Conditions.{IsOver, Binds, IsNarrow};
ghost use Rattle.set_compile.specs.Kinds.{IsOfMode, Stands, IsShaped};
ghost use Rattle.set_compile.specs.Positions.{shared, spread};
ghost use Rattle.set_compile.specs.Steps.{IsOfPairs, IsMade, IsFirstRefused};

use crate::CompileError;
use crate::atoms::atom_part;
use crate::binding::bound;
use crate::build::Build;
use crate::joining::join;
use crate::negation::opposite;
use crate::positions::shared_tracks;
use formula_core::{Formula, depends_on_free_places};
use lash_io::Memory;
use linear_atoms::AtomKind;
use product_ops::Op;
use std::alloc::Global;
use weak_min::Canon;

/// The canonical table of the truth function of two parts of a formula, from their tables.
fn joined(
    alloc: Global,
    build: &Build,
    whole: &Formula,
    left: (&Formula, &Canon),
    right: (&Formula, &Canon),
    places: u32,
    op: Op,
) -> Result<Canon, CompileError>
    requires left_used { (place : ℕ) → IsTrue (uses place (formula_of left.0.now)) → IsTrue (uses place (formula_of whole.now)) }
    requires right_used { (place : ℕ) → IsTrue (uses place (formula_of right.0.now)) → IsTrue (uses place (formula_of whole.now)) }
    requires left_kind { IsOfMode build.now.mode left.1.now.table }
    requires right_kind { IsOfMode build.now.mode right.1.now.table }
    requires base { left.1.now.table.base ≡ right.1.now.table.base }
    requires left_tracks { left.1.now.table.tracks ≡ length (free_places (formula_of left.0.now) places) }
    requires right_tracks { right.1.now.table.tracks ≡ length (free_places (formula_of right.0.now) places) }
    requires letters { left.1.now.table.base ^ length (free_places (formula_of whole.now) places) ≤ 4096 }
    requires limit { build.now.limit ≤ 16777216 }
    ensures shape { IfOk result (λ c. IsShaped build.now.mode left.entry.1.now.table.base (length (free_places (formula_of whole.now) places)) c.table) }
    ensures made { IfOk result (λ c. IsOfPairs op left.entry.1.now.table right.entry.1.now.table (shared (formula_of whole.now) (formula_of left.entry.0.now) (formula_of right.entry.0.now) places) build.now.limit c.table) }
    ensures stands { IfOk result (λ c. (f g : Set) (s u : List ℤ → List ℤ) → Stands left.entry.1.now.table (set_of f s) → Stands right.entry.1.now.table (set_of g u) → Stands c.table (joined_sets op (set_of f s) (set_of g u) (shared (formula_of whole.now) (formula_of left.entry.0.now) (formula_of right.entry.0.now) places))) }
    ensures heavy { IfErr result (λ e. e ≡ CompileError.Heavy → IsHeavyProduct left.entry.1.now.table right.entry.1.now.table (shared (formula_of whole.now) (formula_of left.entry.0.now) (formula_of right.entry.0.now) places) build.now.limit) }
    ensures plain { IfErr result (λ e. (e ≡ CompileError.Memory → ⊥) → e ≡ CompileError.Heavy) }
{
    let map = match shared_tracks(alloc, whole, left.0, right.0, places) {
        Ok(map) => map,
        Err(Memory) => return Err(CompileError::Memory),
    };
    let limit = build.limit;
    match join(alloc, left.1, right.1, &map, op, limit) {
        Ok(made) => Ok(made),
        Err(error) => Err(error),
    }
}

/// The table of a conjunction, from its parts: the left one first.
#[cycle(part)]
fn conjunction(
    alloc: Global,
    build: &Build,
    whole: &Formula,
    left: &Formula,
    right: &Formula,
    places: u32,
) -> Result<Canon, CompileError>
    requires whole { formula_of whole.now ≡ And (formula_of left.now) (formula_of right.now) }
    requires over { IsOver places (And (formula_of left.now) (formula_of right.now)) }
    requires bound { Binds build.now.mode (And (formula_of left.now) (formula_of right.now)) }
    requires letters { IsNarrow build.now.base places (And (formula_of left.now) (formula_of right.now)) }
    requires limit { build.now.limit ≤ 16777216 }
    ensures linear { OnOk result (HasLinearAtoms (And (formula_of left.now) (formula_of right.now))) }
    ensures shape { IfOk result (λ c. IsShaped build.now.mode build.now.base (length (free_places (And (formula_of left.now) (formula_of right.now)) places)) c.table) }
    ensures made { IfOk result (λ c. IsMade build.now places (And (formula_of left.now) (formula_of right.now)) c.table) }
    ensures stands { IfOk result (λ c. Stands c.table (set_of (And (formula_of left.now) (formula_of right.now)) (spread places (free_places (And (formula_of left.now) (formula_of right.now)) places)))) }
    ensures refused { IfErr result (λ e. (e ≡ CompileError.Memory → ⊥) → IsFirstRefused build.now places (And (formula_of left.now) (formula_of right.now)) e) }
{
    depends_on_free_places();
    let first = match part(alloc, build, left, places) {
        Ok(first) => first,
        Err(error) => return Err(error),
    };
    let second = match part(alloc, build, right, places) {
        Ok(second) => second,
        Err(error) => return Err(error),
    };
    joined(
        alloc,
        build,
        whole,
        (left, &first),
        (right, &second),
        places,
        Op::And,
    )
}

/// The table of a disjunction, from its parts: the left one first.
#[cycle(part)]
fn disjunction(
    alloc: Global,
    build: &Build,
    whole: &Formula,
    left: &Formula,
    right: &Formula,
    places: u32,
) -> Result<Canon, CompileError>
    requires whole { formula_of whole.now ≡ Or (formula_of left.now) (formula_of right.now) }
    requires over { IsOver places (Or (formula_of left.now) (formula_of right.now)) }
    requires bound { Binds build.now.mode (Or (formula_of left.now) (formula_of right.now)) }
    requires letters { IsNarrow build.now.base places (Or (formula_of left.now) (formula_of right.now)) }
    requires limit { build.now.limit ≤ 16777216 }
    ensures linear { OnOk result (HasLinearAtoms (Or (formula_of left.now) (formula_of right.now))) }
    ensures shape { IfOk result (λ c. IsShaped build.now.mode build.now.base (length (free_places (Or (formula_of left.now) (formula_of right.now)) places)) c.table) }
    ensures made { IfOk result (λ c. IsMade build.now places (Or (formula_of left.now) (formula_of right.now)) c.table) }
    ensures stands { IfOk result (λ c. Stands c.table (set_of (Or (formula_of left.now) (formula_of right.now)) (spread places (free_places (Or (formula_of left.now) (formula_of right.now)) places)))) }
    ensures refused { IfErr result (λ e. (e ≡ CompileError.Memory → ⊥) → IsFirstRefused build.now places (Or (formula_of left.now) (formula_of right.now)) e) }
{
    depends_on_free_places();
    let first = match part(alloc, build, left, places) {
        Ok(first) => first,
        Err(error) => return Err(error),
    };
    let second = match part(alloc, build, right, places) {
        Ok(second) => second,
        Err(error) => return Err(error),
    };
    joined(
        alloc,
        build,
        whole,
        (left, &first),
        (right, &second),
        places,
        Op::Or,
    )
}

/// The canonical table of a formula over its free variables. The formula is over so many variables and its letters are few; it binds
/// integers alone if the tables read words. The limit of cells is at most 16,777,216. The answer is that of the first step that is refused:
/// `Heavy` exactly if it passes the limit, and `NotWeak` exactly if it does not and no weak automaton has its set. `Memory` is also the
/// answer if more than 2^32 - 1 variables are bound in one another.
#[cycle(part)]
pub fn part(
    alloc: Global,
    build: &Build,
    formula: &Formula,
    places: u32,
) -> Result<Canon, CompileError>
    requires over { IsOver places (formula_of formula.now) }
    requires bound { Binds build.now.mode (formula_of formula.now) }
    requires letters { IsNarrow build.now.base places (formula_of formula.now) }
    requires limit { build.now.limit ≤ 16777216 }
    ensures linear { OnOk result (HasLinearAtoms (formula_of formula.now)) }
    ensures shape { IfOk result (λ c. IsShaped build.now.mode build.now.base (length (free_places (formula_of formula.now) places)) c.table) }
    ensures made { IfOk result (λ c. IsMade build.now places (formula_of formula.now) c.table) }
    ensures stands { IfOk result (λ c. Stands c.table (set_of (formula_of formula.now) (spread places (free_places (formula_of formula.now) places)))) }
    ensures refused { IfErr result (λ e. (e ≡ CompileError.Memory → ⊥) → IsFirstRefused build.now places (formula_of formula.now) e) }
{
    match formula {
        Formula::Le(term) => atom_part(alloc, build, term, AtomKind::Le),
        Formula::Eq(term) => atom_part(alloc, build, term, AtomKind::Eq),
        Formula::Not(inner) => match part(alloc, build, inner, places) {
            Ok(made) => opposite(alloc, made),
            Err(error) => Err(error),
        },
        Formula::And(left, right) => conjunction(alloc, build, formula, left, right, places),
        Formula::Or(left, right) => disjunction(alloc, build, formula, left, right, places),
        // No place after 2^32 - 1 has a number; a lack of numbers is answered as a lack of memory.
        Formula::Exists(sort, inner) => match places.checked_add(1) {
            Some(within) => match part(alloc, build, inner, within) {
                Ok(body) => bound(alloc, build, *sort, inner, body, places),
                Err(error) => Err(error),
            },
            None => Err(CompileError::Memory),
        },
    }
}
