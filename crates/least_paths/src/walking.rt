//! The least path to a state, walked back from the state over parents. Each state is met once at most, and looked at once for each
//! start and each letter.

ghost use Rattle.std.specs.Prelude.{◌<◌, IfOk};
ghost use Rattle.least_paths.specs.Nets.{IsOrdered};
ghost use Rattle.least_paths.specs.Arrivals.{IsLeastTo, AreParents};

use crate::nets::Graph;
use crate::parents::parents_of;
use crate::scans::{first_letter, first_start};
use lash_io::Memory;
use std::alloc::Global;

/// The number of a start, and the letters that are read from it.
#[derive(Drop)]
pub struct Trail {
    pub start: u32,
    pub letters: Vec<u32>,
}

/// The least path to a state, over the parents of the states.
fn least_trail<G: Graph>(
    alloc: Global,
    graph: &G,
    parents: &[u32],
    state: u32,
) -> Result<Trail, Memory>
    requires ordered { IsOrdered (G.net graph.now) }
    requires parents { AreParents (G.net graph.now) 0 0 parents.now }
    requires state { state < (G.net graph.now).states }
    ensures { IfOk result (λ x. IsLeastTo (G.net graph.now) state (record { start = x.start; word = x.letters.items })) }
{
    let mut letters = Vec::new(alloc);
    let mut at = state;
    loop {
        if let Some(start) = first_start(graph, at) {
            letters.reverse();
            return Ok(Trail { start, letters });
        }
        let from = parents[at as usize];
        match letters.push(first_letter(graph, from, at)) {
            Ok(()) => {}
            Err(_) => return Err(Memory),
        }
        at = from;
    }
}

/// The least path to a state.
pub fn least_path<G: Graph>(alloc: Global, graph: &G, state: u32) -> Result<Trail, Memory>
    requires ordered { IsOrdered (G.net graph.now) }
    requires state { state < (G.net graph.now).states }
    ensures { IfOk result (λ x. IsLeastTo (G.net graph.now) state (record { start = x.start; word = x.letters.items })) }
{
    let parents = match parents_of(alloc, graph) {
        Ok(parents) => parents,
        Err(Memory) => return Err(Memory),
    };
    match least_trail(alloc, graph, parents.as_slice(), state) {
        Ok(trail) => Ok(trail),
        Err(Memory) => Err(Memory),
    }
}
