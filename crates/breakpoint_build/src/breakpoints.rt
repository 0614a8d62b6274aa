//! Breakpoint states as a machine to be explored (Miyano and Hayashi): the fraction states where an automaton can be, if a track is
//! forgotten, and those of them that owe a run of colour yes since the last breakpoint. It starts at the outputs of the sets of integer
//! states that were explored before.

ghost use Rattle.std.specs.Prelude.{◌≡◌, ◌<◌, ◌^◌, All, IsTrue, OnOk};
ghost use Rattle.lash_model.specs.Tables.{ints, fracs};
ghost use Rattle.subset_build.specs.Projection.{kept, is_rising_in};
ghost use Rattle.breakpoint_laws.specs.Breakpoints.{frac_transitions, step_of_key, is_key};

use crate::keys::{begin_key, owing_in, push_yes, states_in, write_entries};
use lash_io::Memory;
use packed_cells::{Cells, Plain};
use smallvec::SmallVec;
use std::alloc::Global;
use std::marker::Model;
use step_tables::{Explored, Key, Machine, Table};
use subset_build::SetSteps;

/// An automaton of which a track is forgotten, the steps of sets of its fraction states, and its explored sets of integer states.
#[derive(Drop)]
pub struct Breakpoints<'a, C: Cells> {
    width: u32,
    states: u32,
    table: &'a Table<C>,
    steps: SetSteps<'a, Plain>,
    sets: &'a Explored,
    /// Room for the list of states that a step writes.
    room: Key,
}

impl<'a, C: Cells> Model for Breakpoints<'a, C> {
    ghost use Rattle.breakpoint_build.specs.BreakpointMachines.{Breaking, IsBreaking};

    ghost Value = { Breaking };

    ghost view = { λ b. record { table = b.table.now.table; track = b.steps.track; sets = b.sets.now } };

    ghost invariant = { λ b. IsBreaking b.width b.states b.steps.moves (record { table = b.table.now.table; track = b.steps.track; sets = b.sets.now }) };
}

impl<'a, C: Cells> Breakpoints<'a, C> {
    /// The breakpoint states to which explored sets of integer states lead. The automaton has fraction states, and the track is one of its
    /// tracks.
    pub fn new(
        alloc: Global,
        table: &'a Table<C>,
        steps: SetSteps<'a, Plain>,
        sets: &'a Explored,
    ) -> Self
        requires track { steps.track < table.now.table.tracks }
        requires moves { steps.moves ≡ frac_transitions table.now.table }
        requires fractions { 0 < fracs table.now.table }
        requires sets { All (λ k. IsTrue (is_rising_in 0 (ints table.now.table) k)) sets.now.keys }
        ensures { result ≡ record { table = table.now.table; track = steps.entry.track; sets = sets.now } }
    {
        let _letters = table.letters();
        Breakpoints {
            width: table.base().radix().pow(table.tracks() - 1),
            states: table.fracs(),
            table,
            steps,
            sets,
            room: SmallVec::new(alloc),
        }
    }

    /// Writes the key after a key and a letter of the kept tracks.
    fn write_step(&mut self, from: &[u32], letter: u32, into: &mut Key) -> Result<(), Memory>
        requires key { IsTrue (is_key (fracs self.old.table) from.now) }
        requires letter { letter < self.old.table.base ^ kept self.old.table }
        ensures key { OnOk result (into.new.items ≡ step_of_key self.old.table self.old.track from.now letter) }
        ensures kept { self.new ≡ self.old }
    {
        let states = states_in(from, self.states);
        let owing = owing_in(from, self.states);
        match self.steps.step(states, letter, &mut self.room) {
            Ok(()) => {}
            Err(Memory) => return Err(Memory),
        }
        match begin_key(self.room.as_slice(), into) {
            Ok(()) => {}
            Err(Memory) => return Err(Memory),
        }
        if !owing.is_empty() {
            match self.steps.step(owing, letter, &mut self.room) {
                Ok(()) => {}
                Err(Memory) => return Err(Memory),
            }
        }
        push_yes(self.table, self.room.as_slice(), into)
    }
}

impl<C: Cells> Machine for Breakpoints<'_, C> {
    ghost use Rattle.graph_laws.specs.Exploring.{led_by};
    ghost use Rattle.breakpoint_laws.specs.Breakpoints.{entry_key, breakpoints};

    ghost meaning = { λ b. led_by (entry_key b.table) (breakpoints b.table b.track) b.sets.keys };

    fn letters(&self) -> u32 {
        self.width
    }

    fn starts(&self) -> usize {
        self.sets.len() as usize
    }

    fn start(&mut self, at: usize, into: &mut Key) -> Result<(), Memory> {
        let _count = self.sets.len();
        match write_entries(self.table, self.sets.key(at as u32), &mut self.room) {
            Ok(()) => {}
            Err(Memory) => return Err(Memory),
        }
        begin_key(self.room.as_slice(), into)
    }

    fn step(&mut self, from: &Key, letter: u32, into: &mut Key) -> Result<(), Memory> {
        self.write_step(from.as_slice(), letter, into)
    }

    fn numbers(&self) -> u64 {
        0
    }

    fn radix(&self) -> u32 {
        0
    }

    fn number_behind(&self, _from: &Key, _letter: u32) -> u64 {
        u64::MAX
    }

    fn is_behind(&self, _from: &Key, _letter: u32, _key: &[u32]) -> bool {
        false
    }

    fn weight(&self, key: &Key) -> u64 {
        key.len() as u64 - 1
    }
}
