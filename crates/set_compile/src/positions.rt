//! Where the places of one list stand in another. A list has at most 12 places, one for each track of a table.

ghost use Rattle.std.specs.Prelude.{◌≡◌, ◌<◌, ◌^◌, ℕ, All, IsTrue, length, nat_eq, IfOk, OnOk};
ghost use Rattle.formula_core.specs.Atoms.{HasLinearAtoms};
ghost use Rattle.formula_core.specs.Counts.{uses, free_places};
ghost use Rattle.formula_core.specs.Shape.{formula_of};
ghost use Rattle.set_compile.specs.Positions.{position_of, positions as positions_of, shared};

use formula_core::{Formula, free_vars};
use lash_io::Memory;
use product_ops::TrackMap;
use std::alloc::Global;

/// The first position of a place; the list's length where it is not there.
fn position(places: &[u32], place: u32) -> u32
    requires { length places.now < 2 ^ 32 }
    ensures { result ≡ position_of places.now place }
{
    for (at, other) in places.iter().enumerate() {
        if *other == place {
            return at as u32;
        }
    }
    places.len() as u32
}

/// The positions of places in a list.
fn positions(alloc: Global, within: &[u32], places: &[u32]) -> Result<Vec<u32>, Memory>
    requires { length within.now < 2 ^ 32 }
    ensures { IfOk result (λ v. v.items ≡ positions_of within.now places.now) }
{
    let mut found = Vec::new(alloc);
    for place in places {
        match found.push(position(within, *place)) {
            Ok(()) => {}
            Err(_) => return Err(Memory),
        }
    }
    Ok(found)
}

/// The tracks that the tables of two parts read of the tracks of a formula's table. Each variable that a part uses is one that the
/// formula uses.
pub fn shared_tracks(
    alloc: Global,
    whole: &Formula,
    left: &Formula,
    right: &Formula,
    places: u32,
) -> Result<TrackMap, Memory>
    requires left { (place : ℕ) → IsTrue (uses place (formula_of left.now)) → IsTrue (uses place (formula_of whole.now)) }
    requires right { (place : ℕ) → IsTrue (uses place (formula_of right.now)) → IsTrue (uses place (formula_of whole.now)) }
    ensures { IfOk result (λ m. m ≡ shared (formula_of whole.now) (formula_of left.now) (formula_of right.now) places) }
{
    let all = match free_vars(alloc, whole, places) {
        Ok(all) => all,
        Err(Memory) => return Err(Memory),
    };
    let first = match free_vars(alloc, left, places) {
        Ok(first) => first,
        Err(Memory) => return Err(Memory),
    };
    let second = match free_vars(alloc, right, places) {
        Ok(second) => second,
        Err(Memory) => return Err(Memory),
    };
    let lefts = match positions(alloc, &all, &first) {
        Ok(lefts) => lefts,
        Err(Memory) => return Err(Memory),
    };
    match positions(alloc, &all, &second) {
        Ok(rights) => Ok(TrackMap::new(all.len() as u32, lefts, rights)),
        Err(Memory) => Err(Memory),
    }
}
