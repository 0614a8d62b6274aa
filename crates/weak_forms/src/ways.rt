//! The least path to a state of a kind: one search, and the first position of such a state.

ghost use Rattle.std.specs.Prelude.{◌≡◌, ◌<◌, ◌^◌, ℕ, All, length, slice_index, IfOk, IfNone, IfSome};
ghost use Rattle.least_paths.specs.Nets.{IsClosed};
ghost use Rattle.weak_forms.specs.Ways.{IsGoal, IsFirstGoal, IsLeastWay, LeadsToNone};

use crate::finding::{Found, Reached, find};
use lash_io::Memory;
use least_paths::{Graph, Trail, least_path};
use std::alloc::Global;

/// The first position of a goal. None if there is none.
fn first_goal(found: &Found, goals: &[bool]) -> Option<u32>
    requires states { All (λ q. q < length goals.now) found.now.order }
    requires few { length found.now.order < 2 ^ 32 }
    ensures none { IfNone result ((i : ℕ) → i < length found.now.order → IsGoal goals.now (slice_index found.now.order i) → ⊥) }
    ensures some { IfSome result (IsFirstGoal goals.now found.now.order) }
{
    for at in 0..found.len() as u32 {
        if goals[found.state(at as usize) as usize] {
            return Some(at);
        }
    }
    None
}

/// The least path from a start to a goal. None if no path leads to one. The one error is Memory: out of memory.
pub(crate) fn least_way<G: Graph>(
    alloc: Global,
    graph: &G,
    goals: &[bool],
) -> Result<Option<Trail>, Memory>
    requires closed { IsClosed (G.net graph.now) }
    requires goals { length goals.now ≡ (G.net graph.now).states }
    ensures none { IfOk result (λ way. IfNone way (LeadsToNone (G.net graph.now) goals.now)) }
    ensures some { IfOk result (λ way. IfSome way (λ x. IsLeastWay (G.net graph.now) goals.now (record { start = x.start; word = x.letters.items }))) }
{
    let found = match find(alloc, graph) {
        Ok(found) => found,
        Err(Memory) => return Err(Memory),
    };
    let at = match first_goal(&found, goals) {
        Some(at) => at,
        None => return Ok(None),
    };
    match least_path(alloc, &Reached::new(&found), at) {
        Ok(trail) => Ok(Some(trail)),
        Err(Memory) => Err(Memory),
    }
}
