//! Sets of at most 12 places (own): each place once, in an array. More than 12 free variables have more than 4,096 letters in any
//! base, so that the test of letters never needs a greater set. A place is found by a look at all of them.

ghost use Rattle.std.specs.Prelude.{◌≡◌, ◌≤◌, ◌<◌, ◌||◌, ℕ, Bool, min, List, [], ◌∷◌, ◌++◌, length, MatchOption, nat_eq};
ghost use Rattle.std.specs.Set.{is_member};
ghost use Rattle.formula_core.specs.Counts.{count_limit};
ghost use Rattle.formula_core.specs.PlaceSets.{IsSetOf, Gathers};

use std::marker::Model;

/// At most 12 places.
#[derive(Drop)]
pub struct PlaceSet {
    places: [u32; 12],
    count: u32,
}

impl Model for PlaceSet {
    ghost use Rattle.std.specs.Prelude.{◌≤◌, List, ℕ, take};

    ghost Value = { List ℕ };

    ghost view = { λ s. take s.count s.places };

    ghost invariant = { λ s. s.count ≤ 12 };
}

impl PlaceSet {
    /// The empty set.
    pub fn empty() -> PlaceSet
        ensures { result ≡ [] }
    {
        PlaceSet {
            places: [0; 12],
            count: 0,
        }
    }

    /// The places.
    pub fn as_slice(&self) -> &[u32]
        ensures { result.now ≡ self.now }
    {
        &self.places[..self.count as usize]
    }

    /// How many places there are.
    pub fn len(&self) -> u32
        ensures { result ≡ length self.now }
    {
        self.count
    }

    // With a place that is not in the set; None where the set is full.
    fn pushed(self, place: u32) -> Option<PlaceSet>
        ensures { MatchOption result (length self ≡ 12) (λ set. set ≡ self ++ place ∷ []) }
    {
        if self.count == 12 {
            return None;
        }
        let mut set = self;
        set.places[set.count as usize] = place;
        set.count += 1;
        Some(set)
    }

    /// With the place, where it is below the number of variables; None where more than 12 places would be in the set. The number is
    /// counted up to 2^64 - 1 only, which no place reaches.
    pub fn with_place(self, place: u32, variables: u64) -> Option<PlaceSet>
        ensures { (test : ℕ → Bool) (n : ℕ) → min n count_limit ≡ variables → IsSetOf test n self → Gathers (λ k. test k || nat_eq k place) n result }
    {
        if place as u64 >= variables || self.as_slice().contains(&place) {
            return Some(self);
        }
        self.pushed(place)
    }

    /// With those of the places that are below the number of variables; None where more than 12 would be in the set.
    pub fn with_places(self, places: &[u32], variables: u64) -> Option<PlaceSet>
        ensures { (test : ℕ → Bool) (n : ℕ) → min n count_limit ≡ variables → IsSetOf test n self → Gathers (λ k. test k || is_member nat_eq places.now k) n result }
    {
        let mut set = self;
        for place in places {
            match set.with_place(*place, variables) {
                Some(more) => set = more,
                None => return None,
            }
        }
        Some(set)
    }
}
