//! Where sets of states go on a letter of the kept tracks, whatever the digit on the forgotten track is. Costs for each member and digit
//! a look-up, and the sorting of the targets.

ghost use Rattle.std.specs.Prelude.{◌≡◌, ◌-◌, ◌+◌, ◌*◌, ◌++◌, ◌<◌, ◌^◌, All, OnOk, IsTrue, Contains, slice_index};
ghost use Rattle.subset_build.specs.Closing.{AreOver};
ghost use Rattle.subset_build.specs.Projection.{IsRisingSet, is_rising_in, step_of_set};
ghost use Rattle.subset_build.specs.Subsets.{AreTransitions, targets, targets_of_set};

use crate::kept_letters::{Span, letters_over};
use digit_codes::Base;
use lash_io::Memory;
use packed_cells::Cells;
use std::marker::Model;
use step_tables::Key;

/// The rows of a part of an automaton, and the track that is forgotten.
#[derive(Drop)]
pub struct SetSteps<'a, C: Cells> {
    rows: &'a C,
    base: Base,
    tracks: u32,
    track: u32,
    letters: u32,
    states: u32,
}

impl<'a, C: Cells> Model for SetSteps<'a, C> {
    ghost use Rattle.subset_build.specs.Subsets.{Forgetting, IsForgetting};

    ghost Value = { Forgetting };

    ghost view = { λ s. record { moves = record { base = s.base; tracks = s.tracks; rows = C.items s.rows.now; states = s.states }; track = s.track } };

    ghost invariant = { λ s. IsForgetting s.letters (record { moves = record { base = s.base; tracks = s.tracks; rows = C.items s.rows.now; states = s.states }; track = s.track }) };
}

/// Puts a list in rising order, each number once.
pub fn put_in_order(list: &mut Key)
    ensures { IsRisingSet (Contains list.old.items) list.new.items }
{
    list.as_mut_slice().sort_unstable();
    list.dedup();
}

impl<'a, C: Cells> SetSteps<'a, C> {
    /// The steps over flat rows of targets, one for each state and letter of all tracks. There are at most 4,096 letters, and the track
    /// that is forgotten is one of all.
    pub fn new(rows: &'a C, base: Base, tracks: u32, track: u32, states: u32) -> Self
        requires moves { AreTransitions (record { base = base; tracks = tracks; rows = C.items rows.now; states = states }) }
        requires track { track < tracks }
        ensures { result ≡ record { moves = record { base = base; tracks = tracks; rows = C.items rows.now; states = states }; track = track } }
    {
        SetSteps {
            rows,
            base,
            tracks,
            track,
            letters: base.radix().pow(tracks),
            states,
        }
    }

    /// The target of a state on a letter of all tracks.
    fn target(&self, state: u32, letter: u32) -> u32
        requires state { state < self.now.moves.states }
        requires letter { letter < self.now.moves.base ^ self.now.moves.tracks }
        ensures { result ≡ slice_index self.now.moves.rows (state * self.now.moves.base ^ self.now.moves.tracks + letter) }
    {
        self.rows
            .get(state as usize * self.letters as usize + letter as usize)
    }

    /// Appends the targets of a state on the letters over a kept letter.
    fn push_targets(
        &self,
        letter: u32,
        over: Span,
        state: u32,
        into: &mut Key,
    ) -> Result<(), Memory>
        requires over { AreOver self.now.moves.base (self.now.moves.tracks - 1) self.now.track letter over.first over.stride }
        requires state { state < self.now.moves.states }
        ensures { OnOk result (into.new.items ≡ into.old.items ++ targets self.now.moves self.now.track letter state) }
    {
        for digit in 0..self.base.radix() {
            match into.push(self.target(state, over.letter(digit))) {
                Ok(()) => {}
                Err(_) => return Err(Memory),
            }
        }
        Ok(())
    }

    /// Writes the targets of each state of a set.
    fn write_targets(
        &self,
        letter: u32,
        over: Span,
        set: &[u32],
        into: &mut Key,
    ) -> Result<(), Memory>
        requires over { AreOver self.now.moves.base (self.now.moves.tracks - 1) self.now.track letter over.first over.stride }
        requires set { All (λ q. q < self.now.moves.states) set.now }
        ensures { OnOk result (into.new.items ≡ targets_of_set self.now.moves self.now.track letter set.now) }
    {
        into.clear();
        for state in set {
            match self.push_targets(letter, over, *state, into) {
                Ok(()) => {}
                Err(Memory) => return Err(Memory),
            }
        }
        Ok(())
    }

    /// Writes the rising list of the states to which the states of a rising list go on a kept letter and some digit.
    pub fn step(&self, set: &[u32], letter: u32, into: &mut Key) -> Result<(), Memory>
        requires set { IsTrue (is_rising_in 0 self.now.moves.states set.now) }
        requires letter { letter < self.now.moves.base ^ (self.now.moves.tracks - 1) }
        ensures set { OnOk result (into.new.items ≡ step_of_set self.now.moves self.now.track set.now letter) }
        ensures rising { OnOk result (IsTrue (is_rising_in 0 self.now.moves.states into.new.items)) }
    {
        let over = letters_over(self.base, self.tracks - 1, self.track, letter);
        match self.write_targets(letter, over, set, into) {
            Ok(()) => {}
            Err(Memory) => return Err(Memory),
        }
        put_in_order(into);
        Ok(())
    }
}
