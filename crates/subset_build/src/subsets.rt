//! The sets of states in which a diagram can be, as a machine to be explored.

ghost use Rattle.std.specs.Prelude.{◌≡◌, ◌<◌, OnOk};
ghost use Rattle.subset_build.specs.Projection.{int_transitions, AreStartSets};

use crate::{SetSteps, StartSets};
use lash_io::Memory;
use packed_cells::Cells;
use std::marker::Model;
use step_tables::{Key, Machine, Table};

/// Where the sets of states of a diagram go, if a track is forgotten, and the start sets.
#[derive(Drop)]
pub struct Subsets<'a, C: Cells> {
    steps: SetSteps<'a, C>,
    width: u32,
    starts: &'a StartSets,
}

impl<'a, C: Cells> Model for Subsets<'a, C> {
    ghost use Rattle.subset_build.specs.Subsets.{Projected, IsProjected};

    ghost Value = { Projected };

    ghost view = { λ s. record { moves = s.steps.moves; track = s.steps.track; sets = s.starts.now } };

    ghost invariant = { λ s. IsProjected s.width (record { moves = s.steps.moves; track = s.steps.track; sets = s.starts.now }) };
}

/// Writes a set that is given.
fn copy_set(set: &[u32], into: &mut Key) -> Result<(), Memory>
    ensures { OnOk result (into.new.items ≡ set.now) }
{
    into.clear();
    match into.extend_from_slice(set) {
        Ok(()) => Ok(()),
        Err(_) => Err(Memory),
    }
}

impl<'a, C: Cells> Subsets<'a, C> {
    /// The sets of states of a diagram, where a track is forgotten.
    pub fn new(table: &'a Table<C>, track: u32, starts: &'a StartSets) -> Self
        requires track { track < table.now.table.tracks }
        requires starts { AreStartSets table.now.table track starts.now }
        ensures { result ≡ record { moves = int_transitions table.now.table; track = track; sets = starts.now } }
    {
        let _letters = table.letters();
        let base = table.base();
        let tracks = table.tracks();
        Subsets {
            steps: SetSteps::new(table.rows(), base, tracks, track, table.ints()),
            width: base.radix().pow(tracks - 1),
            starts,
        }
    }
}

impl<C: Cells> Machine for Subsets<'_, C> {
    ghost use Rattle.subset_build.specs.Projection.{subsets};

    ghost meaning = { λ s. subsets s.moves s.track s.sets };

    fn letters(&self) -> u32 {
        self.width
    }

    fn starts(&self) -> usize {
        self.starts.len()
    }

    fn start(&mut self, at: usize, into: &mut Key) -> Result<(), Memory> {
        copy_set(self.starts.set(at as u32), into)
    }

    fn step(&mut self, from: &Key, letter: u32, into: &mut Key) -> Result<(), Memory> {
        self.steps.step(from.as_slice(), letter, into)
    }

    fn numbers(&self) -> u64 {
        0
    }

    fn radix(&self) -> u32 {
        0
    }

    fn number_behind(&self, _from: &Key, _letter: u32) -> u64 {
        u64::MAX
    }

    fn is_behind(&self, _from: &Key, _letter: u32, _key: &[u32]) -> bool {
        false
    }

    fn weight(&self, key: &Key) -> u64 {
        key.len() as u64
    }
}
