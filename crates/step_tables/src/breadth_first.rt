//! Breadth-first search through a machine's keys: the list of keys is its own queue. It costs one look-up for each key and letter,
//! and takes memory only where a key is new.

ghost use Rattle.std.specs.Prelude.{◌≡◌, ◌+◌, ◌<◌, ◌≤◌, ◌^◌, List, ℕ, [], length, slice_get, Some, IsTrue, IfOk, IfErr, IfSome, OnOk, false, if◌then◌else◌};
ghost use Rattle.std.specs.List.{list_any};
ghost use Rattle.graph_laws.specs.Exploring.{list_at, cells_of, IsExplored, IsHeavy};
ghost use Rattle.step_tables.specs.Gathering.{met, same_list, Starting, Following};

use crate::explored::Search;
use crate::found::Found;
use crate::{ExploreError, Explored, Key, Machine};
use lash_io::Memory;
use smallvec::SmallVec;
use std::alloc::Global;

/// The most numbers of keys by which positions are noted.
const MOST_NUMBERS: u64 = 4_194_304;

/// Meets a proper key, and gives its position. A key that is known is only looked up.
fn place<M: Machine>(
    alloc: Global,
    machine: &M,
    found: &mut Found,
    key: &Key,
    limit: u64,
) -> Result<u32, ExploreError>
    requires limit { limit < 2 ^ 32 }
    requires within { found.old.cells ≤ limit }
    requires proper { IsTrue ((M.meaning machine.now).is_proper key.now.items) }
    ensures keys { OnOk result (found.new.keys ≡ met found.old.keys key.now.items) }
    ensures place { IfOk result (λ p. slice_get found.new.keys p ≡ Some key.now.items) }
    ensures cells { OnOk result (found.new.cells ≡ (if list_any (same_list key.now.items) found.old.keys then found.old.cells else found.old.cells + cells_of (M.meaning machine.now) key.now.items)) }
    ensures within { OnOk result (found.new.cells ≤ limit) }
    ensures new { IfErr result (λ e. e ≡ ExploreError.Heavy → list_any (same_list key.now.items) found.old.keys ≡ false) }
    ensures over { IfErr result (λ e. e ≡ ExploreError.Heavy → limit < found.old.cells + cells_of (M.meaning machine.now) key.now.items) }
{
    match found.noted(key) {
        Some(place) => return Ok(place as u32),
        None => {}
    }
    if !found.is_noting() {
        match found.position(key) {
            Some(place) => return Ok(place as u32),
            None => {}
        }
    }
    let copy = match SmallVec::from_slice(alloc, key.as_slice()) {
        Ok(copy) => copy,
        Err(_) => return Err(ExploreError::Memory),
    };
    let weight = machine
        .weight(key)
        .saturating_add(u64::from(machine.letters()) + 1);
    match found.meet(copy, weight, limit) {
        Ok(place) => Ok(place as u32),
        Err(error) => Err(error),
    }
}

/// Meets a start.
fn begin<M: Machine>(
    alloc: Global,
    machine: &mut M,
    table: &mut Search,
    into: &mut Key,
    at: usize,
    limit: u64,
) -> Result<(), ExploreError>
    requires limit { limit < 2 ^ 32 }
    requires within { table.old.cells ≤ limit }
    requires at { at < length (M.meaning machine.old).starts }
    requires begun { Starting (M.meaning machine.old) at table.old }
    ensures begun { OnOk result (Starting (M.meaning machine.old) (at + 1) table.new) }
    ensures within { OnOk result (table.new.cells ≤ limit) }
    ensures heavy { IfErr result (λ e. e ≡ ExploreError.Heavy → IsHeavy (M.meaning machine.old) limit) }
    ensures kept { M.meaning machine.new ≡ M.meaning machine.old }
{
    match machine.start(at, into) {
        Ok(()) => {}
        Err(Memory) => return Err(ExploreError::Memory),
    }
    let place = match place(alloc, &*machine, &mut table.found, &*into, limit) {
        Ok(place) => place,
        Err(error) => return Err(error),
    };
    match table.starts.push(place) {
        Ok(()) => {}
        Err(_) => return Err(ExploreError::Memory),
    }
    Ok(())
}

/// Meets all starts.
fn begin_all<M: Machine>(
    alloc: Global,
    machine: &mut M,
    table: &mut Search,
    into: &mut Key,
    limit: u64,
) -> Result<(), ExploreError>
    requires limit { limit < 2 ^ 32 }
    requires within { table.old.cells ≤ limit }
    requires begun { Starting (M.meaning machine.old) 0 table.old }
    ensures begun { OnOk result (Starting (M.meaning machine.old) (length (M.meaning machine.old).starts) table.new) }
    ensures within { OnOk result (table.new.cells ≤ limit) }
    ensures heavy { IfErr result (λ e. e ≡ ExploreError.Heavy → IsHeavy (M.meaning machine.old) limit) }
    ensures kept { M.meaning machine.new ≡ M.meaning machine.old }
{
    for at in 0..machine.starts() {
        match begin(alloc, machine, table, into, at, limit) {
            Ok(()) => {}
            Err(error) => return Err(error),
        }
    }
    Ok(())
}

/// The position of the key that a letter leads to, if it is noted.
fn known_behind<M: Machine>(machine: &M, found: &Found, at: usize, letter: u32) -> Option<u32>
    requires few { found.now.cells < 2 ^ 32 }
    requires at { at < length found.now.keys }
    requires proper { IsTrue ((M.meaning machine.now).is_proper (list_at found.now.keys at)) }
    requires letter { letter < (M.meaning machine.now).width }
    ensures { IfSome result (λ p. slice_get found.now.keys p ≡ Some ((M.meaning machine.now).step (list_at found.now.keys at) letter)) }
{
    let from = found.key(at);
    let place = match found.noted_at(machine.number_behind(from, letter)) {
        Some(place) => place,
        None => return None,
    };
    if found.len() <= place || !machine.is_behind(from, letter, found.key(place).as_slice()) {
        return None;
    }
    Some(place as u32)
}

/// Meets the key that a letter leads to, written anew.
fn follow_anew<M: Machine>(
    alloc: Global,
    machine: &mut M,
    table: &mut Search,
    into: &mut Key,
    at: usize,
    letter: u32,
    limit: u64,
) -> Result<(), ExploreError>
    requires limit { limit < 2 ^ 32 }
    requires within { table.old.cells ≤ limit }
    requires at { at < length table.old.keys }
    requires letter { letter < (M.meaning machine.old).width }
    requires followed { Following (M.meaning machine.old) at letter table.old }
    ensures followed { OnOk result (Following (M.meaning machine.old) at (letter + 1) table.new) }
    ensures grown { OnOk result (length table.old.keys ≤ length table.new.keys) }
    ensures within { OnOk result (table.new.cells ≤ limit) }
    ensures heavy { IfErr result (λ e. e ≡ ExploreError.Heavy → IsHeavy (M.meaning machine.old) limit) }
    ensures kept { M.meaning machine.new ≡ M.meaning machine.old }
{
    match machine.step(table.found.key(at), letter, into) {
        Ok(()) => {}
        Err(Memory) => return Err(ExploreError::Memory),
    }
    let place = match place(alloc, &*machine, &mut table.found, &*into, limit) {
        Ok(place) => place,
        Err(error) => return Err(error),
    };
    match table.rows.push(place) {
        Ok(()) => {}
        Err(_) => return Err(ExploreError::Memory),
    }
    Ok(())
}

/// Meets the key that a letter leads to. One that is known by its number is not written.
fn follow<M: Machine>(
    alloc: Global,
    machine: &mut M,
    table: &mut Search,
    into: &mut Key,
    at: usize,
    letter: u32,
    limit: u64,
) -> Result<(), ExploreError>
    requires limit { limit < 2 ^ 32 }
    requires within { table.old.cells ≤ limit }
    requires at { at < length table.old.keys }
    requires letter { letter < (M.meaning machine.old).width }
    requires followed { Following (M.meaning machine.old) at letter table.old }
    ensures followed { OnOk result (Following (M.meaning machine.old) at (letter + 1) table.new) }
    ensures grown { OnOk result (length table.old.keys ≤ length table.new.keys) }
    ensures within { OnOk result (table.new.cells ≤ limit) }
    ensures heavy { IfErr result (λ e. e ≡ ExploreError.Heavy → IsHeavy (M.meaning machine.old) limit) }
    ensures kept { M.meaning machine.new ≡ M.meaning machine.old }
{
    let place = match known_behind(&*machine, &table.found, at, letter) {
        Some(place) => place,
        None => return follow_anew(alloc, machine, table, into, at, letter, limit),
    };
    match table.rows.push(place) {
        Ok(()) => {}
        Err(_) => return Err(ExploreError::Memory),
    }
    Ok(())
}

/// Meets the keys that all letters lead to.
fn follow_row<M: Machine>(
    alloc: Global,
    machine: &mut M,
    table: &mut Search,
    into: &mut Key,
    at: usize,
    limit: u64,
) -> Result<(), ExploreError>
    requires limit { limit < 2 ^ 32 }
    requires within { table.old.cells ≤ limit }
    requires at { at < length table.old.keys }
    requires followed { Following (M.meaning machine.old) at 0 table.old }
    ensures followed { OnOk result (Following (M.meaning machine.old) (at + 1) 0 table.new) }
    ensures within { OnOk result (table.new.cells ≤ limit) }
    ensures heavy { IfErr result (λ e. e ≡ ExploreError.Heavy → IsHeavy (M.meaning machine.old) limit) }
    ensures kept { M.meaning machine.new ≡ M.meaning machine.old }
{
    for letter in 0..machine.letters() {
        match follow(alloc, machine, table, into, at, letter, limit) {
            Ok(()) => {}
            Err(error) => return Err(error),
        }
    }
    Ok(())
}

/// Follows each key that is met, until all have been followed.
fn follow_all<M: Machine>(
    alloc: Global,
    machine: &mut M,
    table: &mut Search,
    into: &mut Key,
    limit: u64,
) -> Result<(), ExploreError>
    requires limit { limit < 2 ^ 32 }
    requires within { table.old.cells ≤ limit }
    requires followed { Following (M.meaning machine.old) 0 0 table.old }
    ensures followed { OnOk result (Following (M.meaning machine.old) (length table.new.keys) 0 table.new) }
    ensures within { OnOk result (table.new.cells ≤ limit) }
    ensures heavy { IfErr result (λ e. e ≡ ExploreError.Heavy → IsHeavy (M.meaning machine.old) limit) }
    ensures kept { M.meaning machine.new ≡ M.meaning machine.old }
{
    let mut at = 0;
    while at < table.found.len() {
        match follow_row(alloc, machine, table, into, at, limit) {
            Ok(()) => {}
            Err(error) => return Err(error),
        }
        at += 1;
    }
    Ok(())
}

/// A search that has found nothing. It notes positions by numbers where these are few.
fn searching<M: Machine>(alloc: Global, machine: &M) -> Result<Search, Memory>
    ensures { IfOk result (λ t. t ≡ record { width = (M.meaning machine.now).width; keys = []; cells = 0; starts = []; rows = [] }) }
{
    let numbers = machine.numbers();
    if 0 < numbers && numbers <= MOST_NUMBERS {
        match Found::noting(alloc, machine.radix(), numbers as usize) {
            Ok(found) => Ok(Search::of(alloc, machine.letters(), found)),
            Err(Memory) => Err(Memory),
        }
    } else {
        Ok(Search::of(alloc, machine.letters(), Found::new(alloc)))
    }
}

/// Explores a machine: finds exactly the keys that words lead to from its starts, each once, in the order of their least paths:
/// shorter words first, then lower starts, then letters. The cells are the sum, over those keys, of the number of letters, one, and
/// the key's weight; Heavy exactly where that sum passes the limit, which is at most 16,777,216. Memory may be wanting at any time.
pub fn explore<M: Machine>(
    alloc: Global,
    machine: &mut M,
    limit: u64,
) -> Result<Explored, ExploreError>
    requires limit { limit ≤ 16777216 }
    requires starts { length (M.meaning machine.old).starts < 2 ^ 32 }
    ensures explored { IfOk result (λ t. IsExplored (M.meaning machine.old) limit t) }
    ensures heavy { IfErr result (λ e. e ≡ ExploreError.Heavy → IsHeavy (M.meaning machine.old) limit) }
    ensures kept { M.meaning machine.new ≡ M.meaning machine.old }
{
    let mut table = match searching(alloc, &*machine) {
        Ok(table) => table,
        Err(Memory) => return Err(ExploreError::Memory),
    };
    let mut into: Key = SmallVec::new(alloc);
    match begin_all(alloc, machine, &mut table, &mut into, limit) {
        Ok(()) => {}
        Err(error) => return Err(error),
    }
    match follow_all(alloc, machine, &mut table, &mut into, limit) {
        Ok(()) => Ok(Explored::new(table)),
        Err(error) => Err(error),
    }
}
