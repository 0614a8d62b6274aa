//! Writing a solution: the one that is fixed by the canonical table, with the value and the digits of each variable.

ghost use Rattle.std.specs.Prelude.{◌≡◌, ◌≤◌, ◌<◌, ◌^◌, List, length, IfOk};
ghost use Rattle.lash_model.specs.Lassos.{IsLasso};
ghost use Rattle.digit_codes.specs.Reading.{lasso_of};
ghost use Rattle.set_answers.specs.Solving.{AreFound, IsFixed, Written};

use crate::WriteError;
use crate::lines::{Answer, write_lines};
use canon_text::Header;
use digit_codes::{Base, Lasso};
use fraction_codes::{Ratio, value};
use lash_io::{Memory, Sink};
use solution_pick::solution;
use std::alloc::Global;
use weak_min::Canon;

/// Writes the fixed solution of a canonical table: `empty` if it accepts nothing, and else `solution` and a line for each variable, with its
/// name, its value in lowest terms, or `-` if the base to the number of letters passes 2 ^ 100, and its digits, those after the point
/// exactly if the table has fraction states. The header's base is the table's, and it has a variable for each track.
///
/// `Fault` comes at a fault of the sink, which then holds a prefix of the text; `Memory` if the program is out of memory, before anything
/// is written.
pub fn write_solution<K: Sink>(
    alloc: Global,
    canon: &Canon,
    header: &Header,
    sink: &mut K,
) -> Result<(), WriteError>
    requires base { header.now.base ≡ canon.now.table.base }
    requires variables { length header.now.vars ≡ canon.now.table.tracks }
    ensures solved { Written header.now.vars canon.now.table (K.held sink.old) (K.held sink.new) (K.faults sink.old) (K.faults sink.new) result }
    ensures count { K.faults sink.old ≤ K.faults sink.new }
{
    let found = match solution(alloc, canon) {
        Ok(found) => found,
        Err(Memory) => return Err(WriteError::Memory),
    };
    match found {
        Some(lasso) => write_found(alloc, &lasso, canon, header, sink),
        None => match sink.put(b"empty\n") {
            Ok(()) => Ok(()),
            Err(_) => Err(WriteError::Fault),
        },
    }
}

/// Writes the solution that the lasso is.
fn write_found<K: Sink>(
    alloc: Global,
    lasso: &Lasso,
    canon: &Canon,
    header: &Header,
    sink: &mut K,
) -> Result<(), WriteError>
    requires base { header.now.base ≡ canon.now.table.base }
    requires variables { length header.now.vars ≡ canon.now.table.tracks }
    requires range { IsLasso canon.now.table.base canon.now.table.tracks (lasso_of lasso.now) }
    requires fixed { IsFixed canon.now.table (lasso_of lasso.now) }
    ensures solved { Written header.now.vars canon.now.table (K.held sink.old) (K.held sink.new) (K.faults sink.old) (K.faults sink.new) result }
    ensures count { K.faults sink.old ≤ K.faults sink.new }
{
    let base = *header.base();
    let tracks = canon.table().tracks();
    let found = match values_of(alloc, lasso, base, tracks) {
        Ok(found) => found,
        Err(Memory) => return Err(WriteError::Memory),
    };
    let answer = Answer {
        base,
        tracks,
        vars: header.vars(),
        lasso,
        found: found.as_slice(),
        fraction: canon.table().fracs() > 0,
    };
    match write_lines(&answer, sink) {
        Ok(()) => Ok(()),
        Err(_) => Err(WriteError::Fault),
    }
}

/// The value of each track.
fn values_of(
    alloc: Global,
    lasso: &Lasso,
    base: Base,
    tracks: u32,
) -> Result<Vec<Option<Ratio>>, Memory>
    requires few { base ^ tracks ≤ 4096 }
    requires lasso { IsLasso base tracks (lasso_of lasso.now) }
    ensures { IfOk result (λ found. AreFound base tracks (lasso_of lasso.now) found.items) }
{
    let mut found = Vec::new(alloc);
    for track in 0..tracks {
        match found.push(value(lasso, base, tracks, track)) {
            Ok(()) => {}
            Err(_) => return Err(Memory),
        }
    }
    Ok(found)
}
