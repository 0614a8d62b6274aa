//! A depth-first walk that puts states together if they reach each other (the path-based method of Gabow), on stacks in arrays that are
//! allocated at once, so that no step of the walk can fail. The states that were seen and have no number yet are held in the order in
//! which they were seen. They stand in groups, each a stretch of that order whose states reach each other, and an earlier group reaches
//! the later ones.

ghost use Rattle.std.specs.Prelude.{◌≡◌, ◌+◌, ◌<◌, ◌≤◌, ℕ, List, length, slice_index, IfOk};
ghost use Rattle.components.specs.Walking.{layout, AreSized, ArePlaced, AreListed, AreNumbers, IsWalk, Lists, seen, shorter};

use lash_io::Memory;
use std::alloc::Global;

/// For each state its part's number and its place among the held states, or the number of states if it has none yet, and how many
/// letters were followed from it. Then the held states in order, the places at which their groups begin, the states of the path from
/// the root to the place of the walk, and the states that have numbers; of each of these lists only so many entries are in use. Also
/// the number of parts found.
#[derive(Drop)]
pub(crate) struct Walk {
    pub(crate) part: Vec<u32>,
    pub(crate) place: Vec<u32>,
    pub(crate) next: Vec<u32>,
    pub(crate) order: Vec<u32>,
    pub(crate) bounds: Vec<u32>,
    pub(crate) path: Vec<u32>,
    pub(crate) finished: Vec<u32>,
    pub(crate) held: u32,
    pub(crate) groups: u32,
    pub(crate) depth: u32,
    pub(crate) count: u32,
    pub(crate) done: u32,
}

// A number so many times.
fn repeated(alloc: Global, number: u32, count: u32) -> Result<Vec<u32>, Memory>
    ensures count { IfOk result (λ numbers. length numbers.items ≡ count) }
    ensures each { IfOk result (λ numbers. (k : ℕ) → k < count → slice_index numbers.items k ≡ number) }
{
    match Vec::from_elem(alloc, number, count as usize) {
        Ok(numbers) => Ok(numbers),
        Err(_) => Err(Memory),
    }
}

/// The walk before any state is seen.
pub(crate) fn unwalked(alloc: Global, states: u32) -> Result<Walk, Memory>
    ensures walk { IfOk result (λ walk. (rows : List ℕ) (width : ℕ) → IsWalk states rows width (layout walk)) }
    ensures ended { IfOk result (λ walk. walk.depth ≡ 0) }
{
    let part = repeated(alloc, states, states)?;
    let place = repeated(alloc, states, states)?;
    let next = repeated(alloc, 0, states)?;
    let order = repeated(alloc, 0, states)?;
    let bounds = repeated(alloc, 0, states)?;
    let path = repeated(alloc, 0, states)?;
    let finished = repeated(alloc, 0, states)?;
    Ok(Walk {
        part,
        place,
        next,
        order,
        bounds,
        path,
        finished,
        held: 0,
        groups: 0,
        depth: 0,
        count: 0,
        done: 0,
    })
}

/// Holds a state that was not seen before, in a group of its own, and goes on to it.
pub(crate) fn see(walk: &mut Walk, state: u32)
    requires sized { AreSized (length walk.old.order.items) (layout walk.old) }
    requires state { state < length walk.old.order.items }
    requires held { walk.old.held < length walk.old.order.items }
    requires groups { walk.old.groups < length walk.old.order.items }
    requires depth { walk.old.depth < length walk.old.order.items }
    ensures { layout walk.new ≡ seen (layout walk.old) state }
{
    walk.place[state as usize] = walk.held;
    walk.order[walk.held as usize] = state;
    walk.bounds[walk.groups as usize] = walk.held;
    walk.path[walk.depth as usize] = state;
    walk.held += 1;
    walk.groups += 1;
    walk.depth += 1;
}

// Numbers the held states from a place on, and lists them.
fn number(walk: &mut Walk, from: u32)
    requires sized { AreSized (length walk.old.order.items) (layout walk.old) }
    requires placed { ArePlaced (length walk.old.order.items) walk.old.part.items walk.old.place.items walk.old.order.items walk.old.held }
    requires from { from ≤ walk.old.held }
    requires numbers { AreNumbers (length walk.old.order.items) walk.old.part.items walk.old.count }
    requires listed { AreListed (length walk.old.order.items) walk.old.part.items walk.old.finished.items walk.old.done }
    requires room { walk.old.done + walk.old.held ≤ length walk.old.order.items }
    requires count { walk.old.count < length walk.old.order.items }
    ensures rest { layout walk.new ≡ record (layout walk.old) { part = walk.new.part.items; finished = walk.new.finished.items; done = walk.new.done } }
    ensures listing { Lists (length walk.old.order.items) (layout walk.old) from (layout walk.new) }
{
    for at in from..walk.held {
        let state = walk.order[at as usize];
        walk.part[state as usize] = walk.count;
        walk.finished[walk.done as usize] = state;
        walk.done += 1;
    }
}

/// Makes the last group a part, which begins at a place, and goes back from the group's first state.
pub(crate) fn close(walk: &mut Walk, from: u32)
    requires sized { AreSized (length walk.old.order.items) (layout walk.old) }
    requires placed { ArePlaced (length walk.old.order.items) walk.old.part.items walk.old.place.items walk.old.order.items walk.old.held }
    requires from { from ≤ walk.old.held }
    requires groups { 0 < walk.old.groups }
    requires depth { 0 < walk.old.depth }
    requires numbers { AreNumbers (length walk.old.order.items) walk.old.part.items walk.old.count }
    requires listed { AreListed (length walk.old.order.items) walk.old.part.items walk.old.finished.items walk.old.done }
    requires room { walk.old.done + walk.old.held ≤ length walk.old.order.items }
    requires count { walk.old.count < length walk.old.order.items }
    ensures rest { layout walk.new ≡ shorter (layout walk.old) from walk.new.part.items walk.new.finished.items walk.new.done }
    ensures listing { Lists (length walk.old.order.items) (layout walk.old) from (layout walk.new) }
{
    number(walk, from);
    walk.held = from;
    walk.groups -= 1;
    walk.depth -= 1;
    walk.count += 1;
}
