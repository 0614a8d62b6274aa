//! The walk over all states, letter by letter. Each iteration follows one letter, joins two groups or goes back from one state, so there
//! are at most as many iterations as there are entries of the rows, and two for each state.

ghost use Rattle.std.specs.Prelude.{◌≡◌, ◌-◌, ◌*◌, ◌<◌, ℕ, length, slice_index, All, IfOk};
ghost use Rattle.components.specs.Walking.{layout, IsWalk, effort};
ghost use Rattle.components.specs.Partings.{AreSplit, AreInOrder};

use crate::walk::{Walk, close, see, unwalked};
use lash_io::Memory;
use std::alloc::Global;

// Follows the next letter from the last state of the path. If it leads to a held state of an earlier group, the last two groups are
// joined, and the letter is followed again, until it leads into the last group.
fn follow(walk: &mut Walk, rows: &[u32], letters: u32, states: u32, state: u32, letter: u32)
    requires rows { length rows.now ≡ states * letters }
    requires targets { All (λ q. q < states) rows.now }
    requires walk { IsWalk states rows.now letters (layout walk.old) }
    requires depth { 0 < walk.old.depth }
    requires state { state ≡ slice_index walk.old.path.items (walk.old.depth - 1) }
    requires letter { letter ≡ slice_index walk.old.next.items state }
    requires within { letter < letters }
    ensures walk { IsWalk states rows.now letters (layout walk.new) }
    ensures less { effort states letters (layout walk.new) < effort states letters (layout walk.old) }
    ensures kept { (q : ℕ) → slice_index walk.old.place.items q < states → slice_index walk.new.place.items q < states }
{
    let target = rows[state as usize * letters as usize + letter as usize];
    let place = walk.place[target as usize];
    if walk.part[target as usize] >= states {
        if place >= states {
            see(walk, target);
        } else if place < walk.bounds[walk.groups as usize - 1] {
            walk.groups -= 1;
            return;
        }
    }
    walk.next[state as usize] = letter + 1;
}

// Follows one letter, or goes back if all letters were followed.
fn advance(walk: &mut Walk, rows: &[u32], letters: u32, states: u32)
    requires rows { length rows.now ≡ states * letters }
    requires targets { All (λ q. q < states) rows.now }
    requires walk { IsWalk states rows.now letters (layout walk.old) }
    requires depth { 0 < walk.old.depth }
    ensures walk { IsWalk states rows.now letters (layout walk.new) }
    ensures less { effort states letters (layout walk.new) < effort states letters (layout walk.old) }
    ensures kept { (q : ℕ) → slice_index walk.old.place.items q < states → slice_index walk.new.place.items q < states }
{
    let state = walk.path[walk.depth as usize - 1];
    let letter = walk.next[state as usize];
    if letter < letters {
        follow(walk, rows, letters, states, state, letter);
        return;
    }
    let place = walk.place[state as usize];
    if walk.bounds[walk.groups as usize - 1] == place {
        close(walk, place);
    } else {
        walk.depth -= 1;
    }
}

// Sees a state, if it was not seen before, and numbers all that it reaches.
fn search(walk: &mut Walk, rows: &[u32], letters: u32, states: u32, root: u32)
    requires rows { length rows.now ≡ states * letters }
    requires targets { All (λ q. q < states) rows.now }
    requires walk { IsWalk states rows.now letters (layout walk.old) }
    requires ended { walk.old.depth ≡ 0 }
    requires root { root < states }
    ensures walk { IsWalk states rows.now letters (layout walk.new) }
    ensures ended { walk.new.depth ≡ 0 }
    ensures kept { (q : ℕ) → slice_index walk.old.place.items q < states → slice_index walk.new.place.items q < states }
    ensures root { slice_index walk.new.place.items root < states }
{
    if walk.place[root as usize] < states {
        return;
    }
    see(walk, root);
    while walk.depth > 0 {
        advance(walk, rows, letters, states);
    }
}

/// The number of parts, the number of each state's part, and the states in the order of their parts.
pub(crate) fn split(
    alloc: Global,
    rows: &[u32],
    letters: u32,
    states: u32,
) -> Result<(u32, Vec<u32>, Vec<u32>), Memory>
    requires rows { length rows.now ≡ states * letters }
    requires targets { All (λ q. q < states) rows.now }
    ensures numbers { IfOk result (λ split. AreSplit rows.now letters states split.0 split.1.items) }
    ensures order { IfOk result (λ split. AreInOrder states split.1.items split.2.items) }
{
    let mut walk = unwalked(alloc, states)?;
    for root in 0..states {
        search(&mut walk, rows, letters, states, root);
    }
    Ok((walk.count, walk.part, walk.finished))
}
