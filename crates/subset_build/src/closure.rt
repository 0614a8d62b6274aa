//! The sign closure: for each sign vector of the kept tracks, the states that are reached from a root over it by letters over its
//! sign letter. Costs a look-up for each such state and digit.

ghost use Rattle.std.specs.Prelude.{◌≡◌, ◌+◌, ◌<◌, ◌^◌, length, OnOk, IfOk};
ghost use Rattle.lash_model.specs.Letters.{sign_letter as letter_of_signs};
ghost use Rattle.lash_model.specs.Tables.{ints};
ghost use Rattle.subset_build.specs.Closing.{AreOver, IsSigned, IsClosing, none_marked};
ghost use Rattle.subset_build.specs.Projection.{kept, IsSignReached, IsRisingSet, AreStartSets};

use crate::StartSets;
use crate::kept_letters::{Span, letters_over, sign_base, sign_letter};
use crate::marks::Marks;
use lash_io::Memory;
use packed_cells::Cells;
use std::alloc::Global;
use step_tables::Table;

/// A diagram, the track that is forgotten, and a sign vector of the others, whose roots and whose sign letter lead on.
#[derive(Drop)]
struct Signed<'a, C: Cells> {
    table: &'a Table<C>,
    track: u32,
    sign: u32,
    roots: Span,
    letters: Span,
}

/// Marks the roots.
fn meet_roots<C: Cells>(signed: &Signed<'_, C>, marks: &mut Marks) -> Result<(), Memory>
    requires signed { IsSigned signed.now.table.now.table signed.now.track signed.now.sign }
    requires roots { AreOver 2 (kept signed.now.table.now.table) signed.now.track signed.now.sign signed.now.roots.first signed.now.roots.stride }
    requires none { marks.old ≡ none_marked (ints signed.now.table.now.table) }
    ensures begun { OnOk result (IsClosing signed.now.table.now.table signed.now.track signed.now.sign 2 0 0 marks.new) }
{
    for bit in 0..2 {
        match marks.meet(signed.table.root(signed.roots.letter(bit))) {
            Ok(()) => {}
            Err(Memory) => return Err(Memory),
        }
    }
    Ok(())
}

/// Marks the targets of the state at a place.
fn meet_targets<C: Cells>(
    signed: &Signed<'_, C>,
    at: usize,
    marks: &mut Marks,
) -> Result<(), Memory>
    requires signed { IsSigned signed.now.table.now.table signed.now.track signed.now.sign }
    requires letters { AreOver signed.now.table.now.table.base (kept signed.now.table.now.table) signed.now.track (letter_of_signs signed.now.table.now.table.base (kept signed.now.table.now.table) signed.now.sign) signed.now.letters.first signed.now.letters.stride }
    requires at { at < length marks.old.states }
    requires closing { IsClosing signed.now.table.now.table signed.now.track signed.now.sign 2 at 0 marks.old }
    ensures closing { OnOk result (IsClosing signed.now.table.now.table signed.now.track signed.now.sign 2 (at + 1) 0 marks.new) }
{
    let state = marks.state(at);
    for digit in 0..signed.table.base().radix() {
        match marks.meet(signed.table.int_step(state, signed.letters.letter(digit))) {
            Ok(()) => {}
            Err(Memory) => return Err(Memory),
        }
    }
    Ok(())
}

/// Marks the targets of each marked state, until all have been followed.
fn close<C: Cells>(signed: &Signed<'_, C>, marks: &mut Marks) -> Result<(), Memory>
    requires signed { IsSigned signed.now.table.now.table signed.now.track signed.now.sign }
    requires letters { AreOver signed.now.table.now.table.base (kept signed.now.table.now.table) signed.now.track (letter_of_signs signed.now.table.now.table.base (kept signed.now.table.now.table) signed.now.sign) signed.now.letters.first signed.now.letters.stride }
    requires closing { IsClosing signed.now.table.now.table signed.now.track signed.now.sign 2 0 0 marks.old }
    ensures closed { OnOk result (IsClosing signed.now.table.now.table signed.now.track signed.now.sign 2 (length marks.new.states) 0 marks.new) }
{
    let mut at = 0;
    while at < marks.len() {
        match meet_targets(signed, at, marks) {
            Ok(()) => {}
            Err(Memory) => return Err(Memory),
        }
        at += 1;
    }
    Ok(())
}

/// The states that are reached under a sign vector of the kept tracks, rising.
fn closed_set<C: Cells>(
    alloc: Global,
    table: &Table<C>,
    track: u32,
    sign: u32,
    marks: &mut Marks,
) -> Result<Vec<u32>, Memory>
    requires track { track < table.now.table.tracks }
    requires sign { sign < 2 ^ kept table.now.table }
    requires count { length marks.old.marked ≡ ints table.now.table }
    ensures count { OnOk result (length marks.new.marked ≡ ints table.now.table) }
    ensures closed { IfOk result (λ v. IsRisingSet (IsSignReached table.now.table track sign) v.items) }
{
    let _letters = table.letters();
    let kept = table.tracks() - 1;
    let letter = sign_letter(table.base(), kept, sign);
    let signed = Signed {
        table,
        track,
        sign,
        roots: letters_over(sign_base(), kept, track, sign),
        letters: letters_over(table.base(), kept, track, letter),
    };
    marks.clear();
    match meet_roots(&signed, marks) {
        Ok(()) => {}
        Err(Memory) => return Err(Memory),
    }
    match close(&signed, marks) {
        Ok(()) => marks.rising(alloc, table.ints()),
        Err(Memory) => Err(Memory),
    }
}

/// For each sign vector of the other tracks than the given one, the rising list of the integer states that are reached from a root
/// with that sign vector, with either sign on the track, by any number of letters whose digits on the other tracks are their sign
/// digits. The track is one of the table's.
pub fn sign_closure<C: Cells>(
    alloc: Global,
    table: &Table<C>,
    track: u32,
) -> Result<StartSets, Memory>
    requires { track < table.now.table.tracks }
    ensures { IfOk result (λ sets. AreStartSets table.now.table track sets) }
{
    let _letters = table.letters();
    let mut marks = match Marks::new(alloc, table.ints()) {
        Ok(marks) => marks,
        Err(Memory) => return Err(Memory),
    };
    let mut sets = Vec::new(alloc);
    for sign in 0..2u32.pow(table.tracks() - 1) {
        let set = match closed_set(alloc, table, track, sign, &mut marks) {
            Ok(set) => set,
            Err(Memory) => return Err(Memory),
        };
        match sets.push(set) {
            Ok(()) => {}
            Err(_) => return Err(Memory),
        }
    }
    Ok(StartSets::new(sets))
}
