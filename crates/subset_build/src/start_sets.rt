//! The start sets of a projection.

ghost use Rattle.std.specs.Prelude.{◌≡◌, ◌<◌, length, map};
ghost use Rattle.graph_laws.specs.Exploring.{list_at};

use std::marker::Model;

/// A rising list of states for each sign vector of the kept tracks.
#[derive(Drop)]
pub struct StartSets {
    sets: Vec<Vec<u32>>,
}

impl Model for StartSets {
    ghost use Rattle.std.specs.Prelude.{ℕ, List, map};

    ghost Value = { List (List ℕ) };

    ghost view = { λ s. map (λ v. v.items) s.sets.items };
}

impl StartSets {
    /// The sets, by rising sign vector.
    pub(crate) fn new(sets: Vec<Vec<u32>>) -> Self
        ensures { result ≡ map (λ v. v.items) sets.items }
    {
        StartSets { sets }
    }

    /// The number of sets.
    pub fn len(&self) -> usize
        ensures { result ≡ length self.now }
    {
        self.sets.len()
    }

    /// The set of a sign vector of the kept tracks, which is below the number of sets.
    pub fn set(&self, sign: u32) -> &[u32]
        requires { sign < length self.now }
        ensures { result.now ≡ list_at self.now sign }
    {
        self.sets[sign as usize].as_slice()
    }
}
