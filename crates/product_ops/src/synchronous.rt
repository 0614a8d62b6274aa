//! The product of two automata that read one word or one lasso in step (Rabin and Scott), over exactly the pairs of states that are
//! reached: the pairs of integer states, and of automata with fraction states also the pairs of these. Costs a look-up for each pair and
//! letter.

ghost use Rattle.std.specs.Prelude.{◌≡◌, ◌+◌, ◌*◌, ◌^◌, ◌<◌, ◌≤◌, ℕ, ℤ, List, length, IfOk, IfErr};
ghost use Rattle.graph_laws.specs.Exploring.{IsExplored, IsHeavy, IsHeavyInTwo};
ghost use Rattle.lash_model.specs.Formulas.{Formula};
ghost use Rattle.lash_model.specs.Standing.{StandsForWhole, StandsForMixed};
ghost use Rattle.lash_model.specs.Tables.{IsTable, IsDiagram, letters, fracs};
ghost use Rattle.lash_model.specs.Sets.{set_of};
ghost use Rattle.part_laws.specs.CanonicalMixed.{fraction_graph};
ghost use Rattle.part_laws.specs.Graphs.{IsWeak};
ghost use Rattle.product_ops.specs.FractionPairs.{AreOneKind, outs_of, fraction_pairs, IsPairTableInTwo};
ghost use Rattle.product_ops.specs.Operations.{joined};
ghost use Rattle.product_ops.specs.Pairs.{pairs, left_operand, right_operand, AreOperands, IsPairTable, AcceptsBoth};
ghost use Rattle.product_ops.specs.ReadLassos.{AcceptsBothLassos};

use crate::fraction_pairs::FractionPairs;
use crate::outputs::{PairColours, PairOutputs};
use crate::pairs::Pairs;
use crate::reading::Reader;
use crate::{Op, TrackMap};
use lash_io::Memory;
use packed_cells::{Cells, Plain};
use std::alloc::Global;
use step_tables::{BuildError, ExploreError, Explored, Machine, Table, explore};

/// What both operands read of the result's letters and sign vectors.
fn readers<'a, A: Cells, B: Cells>(
    alloc: Global,
    left: &'a Table<A>,
    right: &'a Table<B>,
    map: &'a TrackMap,
) -> Result<(Reader<'a, A>, Reader<'a, B>), BuildError>
    requires base { left.now.table.base ≡ right.now.table.base }
    requires left_tracks { length map.now.left ≡ left.now.table.tracks }
    requires right_tracks { length map.now.right ≡ right.now.table.tracks }
    requires letters { left.now.table.base ^ map.now.tracks ≤ 4096 }
    ensures left { IfOk result (λ both. both.0 ≡ left_operand left.now.table map.now) }
    ensures right { IfOk result (λ both. both.1 ≡ right_operand right.now.table map.now) }
    ensures operands { IfOk result (λ _. AreOperands (record { left = left_operand left.now.table map.now; right = right_operand right.now.table map.now })) }
    ensures cause { IfErr result (λ e. e ≡ BuildError.Memory) }
{
    let tracks = map.tracks();
    let left = match Reader::new(alloc, left, tracks, map.left()) {
        Ok(left) => left,
        Err(Memory) => return Err(BuildError::Memory),
    };
    match Reader::new(alloc, right, tracks, map.right()) {
        Ok(right) => Ok((left, right)),
        Err(Memory) => Err(BuildError::Memory),
    }
}

/// The pairs that are reached, numbered by their least paths.
fn explored<M: Machine>(alloc: Global, pairs: &mut M, limit: u64) -> Result<Explored, BuildError>
    requires limit { limit ≤ 16777216 }
    requires starts { length (M.meaning pairs.old).starts < 2 ^ 32 }
    ensures explored { IfOk result (λ k. IsExplored (M.meaning pairs.old) limit k) }
    ensures heavy { IfErr result (λ e. e ≡ BuildError.Heavy → IsHeavy (M.meaning pairs.old) limit) }
{
    match explore(alloc, pairs, limit) {
        Ok(found) => Ok(found),
        Err(ExploreError::Heavy) => Err(BuildError::Heavy),
        Err(ExploreError::Memory) => Err(BuildError::Memory),
    }
}

/// The diagram of the pairs of two diagrams.
fn of_diagrams<A: Cells, B: Cells>(
    alloc: Global,
    left: &Table<A>,
    right: &Table<B>,
    map: &TrackMap,
    op: Op,
    limit: u64,
) -> Result<Table<Plain>, BuildError>
    requires base { left.now.table.base ≡ right.now.table.base }
    requires left_tracks { length map.now.left ≡ left.now.table.tracks }
    requires right_tracks { length map.now.right ≡ right.now.table.tracks }
    requires letters { left.now.table.base ^ map.now.tracks ≤ 4096 }
    requires limit { limit ≤ 16777216 }
    ensures operands { IfOk result (λ _. AreOperands (record { left = left_operand left.now.table map.now; right = right_operand right.now.table map.now })) }
    ensures table { IfOk result (λ t. IsTable t.table) }
    ensures diagram { IfOk result (λ t. IsDiagram t.table) }
    ensures base { IfOk result (λ t. t.table.base ≡ left.now.table.base) }
    ensures tracks { IfOk result (λ t. t.table.tracks ≡ map.now.tracks) }
    ensures pairs { IfOk result (λ t. IsPairTable op left.now.table right.now.table map.now limit t.table) }
    ensures heavy { IfErr result (λ e. e ≡ BuildError.Heavy → IsHeavy (pairs left.now.table right.now.table map.now) limit) }
{
    let both = readers(alloc, left, right, map)?;
    let mut pairs = Pairs::new(&both.0, &both.1);
    let found = explored(alloc, &mut pairs, limit)?;
    let outputs = PairOutputs { op, left, right };
    match Table::of_explored(alloc, left.base(), map.tracks(), &found, &outputs) {
        Ok(made) => Ok(made),
        Err(Memory) => Err(BuildError::Memory),
    }
}

/// The automaton of the pairs of two automata with fraction states. The pairs of fraction states have what those of integer states left
/// of the limit.
fn of_weak_tables<A: Cells, B: Cells>(
    alloc: Global,
    left: &Table<A>,
    right: &Table<B>,
    map: &TrackMap,
    op: Op,
    limit: u64,
) -> Result<Table<Plain>, BuildError>
    requires base { left.now.table.base ≡ right.now.table.base }
    requires left { 0 < fracs left.now.table }
    requires right { 0 < fracs right.now.table }
    requires left_tracks { length map.now.left ≡ left.now.table.tracks }
    requires right_tracks { length map.now.right ≡ right.now.table.tracks }
    requires letters { left.now.table.base ^ map.now.tracks ≤ 4096 }
    requires limit { limit ≤ 16777216 }
    ensures operands { IfOk result (λ _. AreOperands (record { left = left_operand left.now.table map.now; right = right_operand right.now.table map.now })) }
    ensures table { IfOk result (λ t. IsTable t.table) }
    ensures base { IfOk result (λ t. t.table.base ≡ left.now.table.base) }
    ensures tracks { IfOk result (λ t. t.table.tracks ≡ map.now.tracks) }
    ensures mixed_pairs { IfOk result (λ t. IsPairTableInTwo op left.now.table right.now.table map.now limit t.table) }
    ensures heavy { IfErr result (λ e. e ≡ BuildError.Heavy → IsHeavyInTwo (pairs left.now.table right.now.table map.now)
        (outs_of left.now.table right.now.table) (fraction_pairs left.now.table right.now.table map.now) limit) }
{
    let both = readers(alloc, left, right, map)?;
    let mut pairs = Pairs::new(&both.0, &both.1);
    let whole = match explored(alloc, &mut pairs, limit) {
        Ok(whole) => whole,
        Err(error) => return Err(error),
    };
    let mut pairs = FractionPairs::new(&both.0, &both.1, &whole);
    let fraction = match explored(alloc, &mut pairs, limit - whole.cells()) {
        Ok(fraction) => fraction,
        Err(error) => return Err(error),
    };
    let colours = PairColours { op, left, right };
    match Table::of_two_explored(
        alloc,
        left.base(),
        map.tracks(),
        &whole,
        &fraction,
        &colours,
    ) {
        Ok(made) => Ok(made),
        Err(Memory) => Err(BuildError::Memory),
    }
}

/// The table of the truth function of two tables, which are both diagrams, or both have fraction states and are weak. It gives the
/// function of their answers, each to its own tracks of the sign vector and the word, or of the lasso. It has fraction states if they
/// have, and is then weak.
///
/// The tables have one base, the map's lists have as many entries as they have tracks, the base to the map's number of tracks is at most
/// 4,096, and the limit of cells is at most 16,777,216. `Heavy` comes exactly if the pairs of states that are reached, of both parts
/// together, have more cells than the limit: for each the number of letters, one, and its two entries. `Memory` comes if the program is
/// out of memory. The method is the synchronous product of Rabin and Scott (1959).
pub fn product<A: Cells, B: Cells>(
    alloc: Global,
    left: &Table<A>,
    right: &Table<B>,
    map: &TrackMap,
    op: Op,
    limit: u64,
) -> Result<Table<Plain>, BuildError>
    requires base { left.now.table.base ≡ right.now.table.base }
    requires kinds { AreOneKind left.now.table right.now.table }
    requires left_tracks { length map.now.left ≡ left.now.table.tracks }
    requires right_tracks { length map.now.right ≡ right.now.table.tracks }
    requires letters { left.now.table.base ^ map.now.tracks ≤ 4096 }
    requires limit { limit ≤ 16777216 }
    ensures table { IfOk result (λ t. IsTable t.table) }
    ensures diagram { IfOk result (λ t. IsDiagram left.now.table → IsDiagram t.table) }
    ensures base { IfOk result (λ t. t.table.base ≡ left.now.table.base) }
    ensures tracks { IfOk result (λ t. t.table.tracks ≡ map.now.tracks) }
    ensures words { IfOk result (λ t. IsDiagram left.now.table → AcceptsBoth op left.now.table right.now.table map.now t.table) }
    ensures stands { IfOk result (λ t. IsDiagram left.now.table → (f g : Formula) (s u : List ℤ → List ℤ)
        → StandsForWhole left.now.table (set_of f s) → StandsForWhole right.now.table (set_of g u)
        → StandsForWhole t.table (joined op (set_of f s) (set_of g u) map.now)) }
    ensures pairs { IfOk result (λ t. IsDiagram left.now.table → IsPairTable op left.now.table right.now.table map.now limit t.table) }
    ensures heavy { IfErr result (λ e. IsDiagram left.now.table → e ≡ BuildError.Heavy → IsHeavy (pairs left.now.table right.now.table map.now) limit) }
    ensures fractions { IfOk result (λ t. 0 < fracs left.now.table → 0 < fracs t.table) }
    ensures weak { IfOk result (λ t. 0 < fracs left.now.table → IsWeak (letters t.table) (fraction_graph t.table)) }
    ensures lassos { IfOk result (λ t. 0 < fracs left.now.table → AcceptsBothLassos op left.now.table right.now.table map.now t.table) }
    ensures stands_mixed { IfOk result (λ t. 0 < fracs left.now.table → (f g : Formula) (s u : List ℤ → List ℤ)
        → StandsForMixed left.now.table (set_of f s) → StandsForMixed right.now.table (set_of g u)
        → StandsForMixed t.table (joined op (set_of f s) (set_of g u) map.now)) }
    ensures mixed_pairs { IfOk result (λ t. 0 < fracs left.now.table → IsPairTableInTwo op left.now.table right.now.table map.now limit t.table) }
    ensures heavy_in_two { IfErr result (λ e. 0 < fracs left.now.table → e ≡ BuildError.Heavy
        → IsHeavyInTwo (pairs left.now.table right.now.table map.now) (outs_of left.now.table right.now.table)
        (fraction_pairs left.now.table right.now.table map.now) limit) }
{
    if left.fracs() == 0 {
        return of_diagrams(alloc, left, right, map, op, limit);
    }
    of_weak_tables(alloc, left, right, map, op, limit)
}
