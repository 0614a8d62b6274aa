//! The keys that were found, each once, and the sum of their cells. Where keys have numbers, a list of places by numbers is asked before
//! the set is: what it answers is compared with the key, so that nothing rests on the numbers.

ghost use Rattle.std.specs.Prelude.{◌≡◌, ◌+◌, ◌<◌, ◌≤◌, ◌^◌, List, ℕ, [], length, slice_get, Some, IfOk, IfErr, IfSome, OnOk, IsTrue, is_some, true, false, if◌then◌else◌};
ghost use Rattle.std.specs.List.{list_any};
ghost use Rattle.step_tables.specs.Gathering.{met, same_list};

use crate::{ExploreError, Key};
use indexmap::IndexSet;
use lash_io::Memory;
use std::alloc::Global;
use std::marker::Model;

/// Whether two keys of one or two entries are equal. Longer ones are not compared.
fn same_short(left: &[u32], right: &[u32]) -> bool
    ensures { IsTrue result → left.now ≡ right.now }
{
    if left.len() == 1 && right.len() == 1 {
        return left[0] == right[0];
    }
    left.len() == 2 && right.len() == 2 && left[0] == right[0] && left[1] == right[1]
}

/// The number of a key of one or two entries; longer ones have the greatest.
fn number_of(key: &[u32], radix: u32) -> usize {
    match key.len() {
        1 => key[0] as usize,
        2 => key[0] as usize * radix as usize + key[1] as usize,
        _ => usize::MAX,
    }
}

/// The keys that were found, each once and in order, and the sum of their cells, which is at least their number. Keys of one or two
/// entries have numbers: the first entry times the radix, and the second one. The place of a number is one more than the position of
/// a key of that number, or 0.
#[derive(Drop)]
pub struct Found {
    keys: IndexSet<Key>,
    cells: u64,
    radix: u32,
    places: Vec<u32>,
}

impl Model for Found {
    ghost use Rattle.std.specs.Prelude.{map, length, ◌≤◌};
    ghost use Rattle.step_tables.specs.FoundKeys.{FoundKeys};

    ghost Value = { FoundKeys };

    ghost view = { λ f. record { keys = map (λ k. k.items) f.keys.keys; cells = f.cells } };

    ghost invariant = { λ f. length f.keys.keys ≤ f.cells };
}

impl Found {
    /// Nothing found.
    pub fn new(alloc: Global) -> Self
        ensures { result ≡ record { keys = []; cells = 0 } }
    {
        Found {
            keys: IndexSet::new(alloc),
            cells: 0,
            radix: 0,
            places: Vec::new(alloc),
        }
    }

    /// Nothing found. Positions are noted by so many numbers.
    pub fn noting(alloc: Global, radix: u32, numbers: usize) -> Result<Self, Memory>
        ensures { IfOk result (λ f. f ≡ record { keys = []; cells = 0 }) }
    {
        match vec![in alloc; 0; numbers] {
            Ok(places) => Ok(Found {
                keys: IndexSet::new(alloc),
                cells: 0,
                radix,
                places,
            }),
            Err(_) => Err(Memory),
        }
    }

    /// Whether positions are noted by numbers.
    pub fn is_noting(&self) -> bool {
        self.places.len() != 0
    }

    /// The position that is noted for a number.
    pub fn noted_at(&self, number: u64) -> Option<usize>
        ensures { IfSome result (λ p. p < length self.now.keys) }
    {
        if number >= self.places.len() as u64 {
            return None;
        }
        let place = self.places[number as usize] as usize;
        if place == 0 || place > self.keys.len() {
            return None;
        }
        Some(place - 1)
    }

    /// The position that is noted for a key. Where none is, the key may still have been found.
    pub fn noted(&self, key: &Key) -> Option<usize>
        ensures place { IfSome result (λ p. slice_get self.now.keys p ≡ Some key.now.items) }
        ensures few { IfSome result (λ p. p < self.now.cells) }
    {
        let number = number_of(key.as_slice(), self.radix);
        if number >= self.places.len() {
            return None;
        }
        let place = self.places[number] as usize;
        if place == 0 || place > self.keys.len() {
            return None;
        }
        if same_short(key.as_slice(), self.keys.as_slice()[place - 1].as_slice()) {
            Some(place - 1)
        } else {
            None
        }
    }

    /// Notes the position of a number.
    fn note(&mut self, number: usize, position: usize)
        requires { position + 1 < 2 ^ 32 }
        ensures { self.new ≡ self.old }
    {
        if number < self.places.len() {
            self.places[number] = position as u32 + 1;
        }
    }

    /// The number of keys.
    pub fn len(&self) -> usize
        ensures value { result ≡ length self.now.keys }
        ensures few { result ≤ self.now.cells }
    {
        self.keys.len()
    }

    /// The sum of the cells.
    pub fn cells(&self) -> u64
        ensures { result ≡ self.now.cells }
    {
        self.cells
    }

    /// The key at a position.
    pub fn key(&self, at: usize) -> &Key
        requires { at < length self.now.keys }
        ensures { slice_get self.now.keys at ≡ Some result.now.items }
    {
        &self.keys.as_slice()[at]
    }

    /// The position of a key, if it was found.
    pub fn position(&self, key: &Key) -> Option<usize>
        ensures place { IfSome result (λ p. slice_get self.now.keys p ≡ Some key.now.items) }
        ensures known { is_some result ≡ list_any (same_list key.now.items) self.now.keys }
        ensures few { IfSome result (λ p. p < self.now.cells) }
    {
        self.keys.get_index_of(key)
    }

    /// Puts a key of so many cells where it is new, and gives its position.
    fn insert(&mut self, key: Key, cells: u64, limit: u64) -> Result<usize, ExploreError>
        requires limit { limit < 2 ^ 32 }
        requires within { self.old.cells ≤ limit }
        requires cells { 0 < cells }
        ensures keys { OnOk result (self.new.keys ≡ met self.old.keys key.items) }
        ensures place { IfOk result (λ p. slice_get self.new.keys p ≡ Some key.items) }
        ensures few { IfOk result (λ p. p < limit) }
        ensures cells { OnOk result (self.new.cells ≡ (if list_any (same_list key.items) self.old.keys then self.old.cells else self.old.cells + cells)) }
        ensures within { OnOk result (self.new.cells ≤ limit) }
        ensures new { IfErr result (λ e. e ≡ ExploreError.Heavy → list_any (same_list key.items) self.old.keys ≡ false) }
        ensures over { IfErr result (λ e. e ≡ ExploreError.Heavy → limit < self.old.cells + cells) }
    {
        let (place, new) = match self.keys.insert_full(key) {
            Ok(found) => found,
            Err(_) => return Err(ExploreError::Memory),
        };
        if new {
            self.cells = self.cells.saturating_add(cells);
            if self.cells > limit {
                return Err(ExploreError::Heavy);
            }
        }
        Ok(place)
    }

    /// Meets a key of so many cells, and gives its position. Heavy where it is new and the sum passes the limit.
    pub fn meet(&mut self, key: Key, cells: u64, limit: u64) -> Result<usize, ExploreError>
        requires limit { limit < 2 ^ 32 }
        requires within { self.old.cells ≤ limit }
        requires cells { 0 < cells }
        ensures keys { OnOk result (self.new.keys ≡ met self.old.keys key.items) }
        ensures place { IfOk result (λ p. slice_get self.new.keys p ≡ Some key.items) }
        ensures few { IfOk result (λ p. p < limit) }
        ensures cells { OnOk result (self.new.cells ≡ (if list_any (same_list key.items) self.old.keys then self.old.cells else self.old.cells + cells)) }
        ensures within { OnOk result (self.new.cells ≤ limit) }
        ensures new { IfErr result (λ e. e ≡ ExploreError.Heavy → list_any (same_list key.items) self.old.keys ≡ false) }
        ensures over { IfErr result (λ e. e ≡ ExploreError.Heavy → limit < self.old.cells + cells) }
    {
        let number = number_of(key.as_slice(), self.radix);
        match self.insert(key, cells, limit) {
            Ok(place) => {
                self.note(number, place);
                Ok(place)
            }
            Err(error) => Err(error),
        }
    }
}
