//! The thresholds of an atom: the least set that holds the seeds and to which every letter lowers its members (own). The found
//! thresholds are their own work list. Costs one look-up for each threshold and letter.

ghost use Rattle.std.specs.Prelude.{◌≡◌, ℕ, ℤ, pos, ◌+◌, ◌*◌, ◌^◌, ◌<◌, ◌≤◌, ◌+ℤ◌, ◌-ℤ◌, ◌<ℤ◌, List, [], ◌∷◌, length, All, unsigned_abs, OnOk, IfOk, IfErr};
ghost use Rattle.std.specs.List.{AllPairs};
ghost use Rattle.std.specs.List.Sorted.{IsPermutation};
ghost use Rattle.threshold_laws.specs.Thresholds.{lowered_by, Among, AreThresholds};
ghost use Rattle.linear_atoms.specs.Closing.{IsSmall, IsSmallTotal, Met, IsStarting, IsClosing, IsOverfull, entry};

use indexmap::IndexSet;
use std::alloc::Global;
use step_tables::BuildError;

/// The bound for values before a letter of the total: the floor of the quotient.
fn lowered(base: u32, total: &i128, bound: &i128) -> i128
    requires base { 2 ≤ base }
    requires few { base ≤ 16 }
    requires total { IsSmallTotal base total.now }
    requires bound { IsSmall bound.now }
    ensures lowered { result ≡ lowered_by base total.now bound.now }
    ensures small { IsSmall result }
{
    (*bound - *total).div_euclid(i128::from(base))
}

/// Meets a bound: it goes last if it is new and there is room.
fn meet(found: &mut IndexSet<i128>, bound: &i128, room: usize) -> Result<(), BuildError>
    requires room { length found.old.keys ≤ room }
    ensures met { OnOk result (Met found.old.keys bound.now found.new.keys) }
    ensures within { OnOk result (length found.new.keys ≤ room) }
    ensures fresh { IfErr result (λ e. e ≡ BuildError.Heavy → Among bound.now found.old.keys → ⊥) }
    ensures full { IfErr result (λ e. e ≡ BuildError.Heavy → length found.old.keys ≡ room) }
{
    if found.contains(bound) {
        return Ok(());
    }
    if found.len() == room {
        return Err(BuildError::Heavy);
    }
    match found.insert(*bound) {
        Ok(_) => Ok(()),
        Err(_) => Err(BuildError::Memory),
    }
}

/// Meets the bound to which a letter lowers the one at `at`.
fn lower(
    found: &mut IndexSet<i128>,
    base: u32,
    totals: &[i128],
    at: usize,
    letter: usize,
    room: usize,
) -> Result<(), BuildError>
    requires base { 2 ≤ base }
    requires few { base ≤ 16 }
    requires totals { All (IsSmallTotal base) totals.now }
    requires at { at < length found.old.keys }
    requires letter { letter < length totals.now }
    requires room { length found.old.keys ≤ room }
    requires small { All IsSmall found.old.keys }
    ensures closing { OnOk result ((seeds : List ℤ) → IsClosing base totals.now seeds found.old.keys at letter
        → IsClosing base totals.now seeds found.new.keys at (letter + 1)) }
    ensures small { OnOk result (All IsSmall found.new.keys) }
    ensures grown { OnOk result (length found.old.keys ≤ length found.new.keys) }
    ensures within { OnOk result (length found.new.keys ≤ room) }
    ensures heavy { IfErr result (λ e. e ≡ BuildError.Heavy → (seeds : List ℤ) → IsClosing base totals.now seeds found.old.keys at letter
        → IsOverfull base totals.now seeds room) }
{
    let bound = lowered(base, &totals[letter], &found.as_slice()[at]);
    match meet(found, &bound, room) {
        Ok(()) => Ok(()),
        Err(error) => Err(error),
    }
}

/// Meets the bounds to which all letters lower the one at `at`.
fn lower_by_letters(
    found: &mut IndexSet<i128>,
    base: u32,
    totals: &[i128],
    at: usize,
    room: usize,
) -> Result<(), BuildError>
    requires base { 2 ≤ base }
    requires few { base ≤ 16 }
    requires totals { All (IsSmallTotal base) totals.now }
    requires at { at < length found.old.keys }
    requires room { length found.old.keys ≤ room }
    requires small { All IsSmall found.old.keys }
    ensures closing { OnOk result ((seeds : List ℤ) → IsClosing base totals.now seeds found.old.keys at 0
        → IsClosing base totals.now seeds found.new.keys (at + 1) 0) }
    ensures small { OnOk result (All IsSmall found.new.keys) }
    ensures grown { OnOk result (length found.old.keys ≤ length found.new.keys) }
    ensures within { OnOk result (length found.new.keys ≤ room) }
    ensures heavy { IfErr result (λ e. e ≡ BuildError.Heavy → (seeds : List ℤ) → IsClosing base totals.now seeds found.old.keys at 0
        → IsOverfull base totals.now seeds room) }
{
    for letter in 0..totals.len() {
        match lower(found, base, totals, at, letter, room) {
            Ok(()) => {}
            Err(error) => return Err(error),
        }
    }
    Ok(())
}

/// Meets a seed.
fn meet_seed(
    found: &mut IndexSet<i128>,
    seeds: &[i128],
    at: usize,
    room: usize,
) -> Result<(), BuildError>
    requires at { at < length seeds.now }
    requires room { length found.old.keys ≤ room }
    requires seeds { All IsSmall seeds.now }
    requires small { All IsSmall found.old.keys }
    ensures starting { OnOk result ((base : ℕ) (totals : List ℤ) → IsStarting base totals seeds.now found.old.keys at
        → IsStarting base totals seeds.now found.new.keys (at + 1)) }
    ensures small { OnOk result (All IsSmall found.new.keys) }
    ensures within { OnOk result (length found.new.keys ≤ room) }
    ensures heavy { IfErr result (λ e. e ≡ BuildError.Heavy → (base : ℕ) (totals : List ℤ) → IsStarting base totals seeds.now found.old.keys at
        → IsOverfull base totals seeds.now room) }
{
    match meet(found, &seeds[at], room) {
        Ok(()) => Ok(()),
        Err(error) => Err(error),
    }
}

/// Meets the seeds, and then all bounds to which letters lower what is found.
fn close(
    found: &mut IndexSet<i128>,
    base: u32,
    totals: &[i128],
    seeds: &[i128],
    room: usize,
) -> Result<(), BuildError>
    requires base { 2 ≤ base }
    requires few { base ≤ 16 }
    requires totals { All (IsSmallTotal base) totals.now }
    requires seeds { All IsSmall seeds.now }
    requires empty { found.old.keys ≡ [] }
    requires room { room < 2 ^ 32 }
    ensures closed { OnOk result (IsClosing base totals.now seeds.now found.new.keys (length found.new.keys) 0) }
    ensures small { OnOk result (All IsSmall found.new.keys) }
    ensures within { OnOk result (length found.new.keys ≤ room) }
    ensures heavy { IfErr result (λ e. e ≡ BuildError.Heavy → IsOverfull base totals.now seeds.now room) }
{
    for at in 0..seeds.len() {
        match meet_seed(found, seeds, at, room) {
            Ok(()) => {}
            Err(error) => return Err(error),
        }
    }
    lower_all(found, base, totals, seeds, room)
}

/// Meets all bounds to which letters lower what is found.
fn lower_all(
    found: &mut IndexSet<i128>,
    base: u32,
    totals: &[i128],
    seeds: &[i128],
    room: usize,
) -> Result<(), BuildError>
    requires base { 2 ≤ base }
    requires few { base ≤ 16 }
    requires totals { All (IsSmallTotal base) totals.now }
    requires small { All IsSmall found.old.keys }
    requires within { length found.old.keys ≤ room }
    requires room { room < 2 ^ 32 }
    requires started { IsClosing base totals.now seeds.now found.old.keys 0 0 }
    ensures closed { OnOk result (IsClosing base totals.now seeds.now found.new.keys (length found.new.keys) 0) }
    ensures small { OnOk result (All IsSmall found.new.keys) }
    ensures within { OnOk result (length found.new.keys ≤ room) }
    ensures heavy { IfErr result (λ e. e ≡ BuildError.Heavy → IsOverfull base totals.now seeds.now room) }
{
    let mut at = 0;
    while at < found.len() {
        match lower_by_letters(found, base, totals, at, room) {
            Ok(()) => {}
            Err(error) => return Err(error),
        }
        at += 1;
    }
    Ok(())
}

/// The found thresholds, rising.
fn in_order(alloc: Global, found: &IndexSet<i128>) -> Result<Vec<i128>, BuildError>
    ensures rising { IfOk result (λ v. AllPairs (λ x y. x <ℤ y) v.items) }
    ensures same { IfOk result (λ v. IsPermutation found.now.keys v.items) }
    ensures never { IfErr result (λ e. e ≡ BuildError.Memory) }
{
    let mut rising = match Vec::from_slice(alloc, found.as_slice()) {
        Ok(rising) => rising,
        Err(_) => return Err(BuildError::Memory),
    };
    match rising.sort() {
        Ok(()) => Ok(rising),
        Err(_) => Err(BuildError::Memory),
    }
}

/// The thresholds of the seeds, rising, if there are at most so many as there is room for. The totals are those of all letters.
pub fn thresholds(
    alloc: Global,
    base: u32,
    totals: &[i128],
    seeds: &[i128],
    room: usize,
) -> Result<Vec<i128>, BuildError>
    requires base { 2 ≤ base }
    requires few { base ≤ 16 }
    requires totals { All (IsSmallTotal base) totals.now }
    requires seeds { All IsSmall seeds.now }
    requires room { room < 2 ^ 32 }
    ensures thresholds { IfOk result (λ v. AreThresholds base (length totals.now) (entry totals.now) seeds.now v.items) }
    ensures small { IfOk result (λ v. All IsSmall v.items) }
    ensures within { IfOk result (λ v. length v.items ≤ room) }
    ensures heavy { IfErr result (λ e. e ≡ BuildError.Heavy → IsOverfull base totals.now seeds.now room) }
{
    let mut found = IndexSet::new(alloc);
    match close(&mut found, base, totals, seeds, room) {
        Ok(()) => {}
        Err(error) => return Err(error),
    }
    match in_order(alloc, &found) {
        Ok(rising) => Ok(rising),
        Err(error) => Err(error),
    }
}
