//! Parents of states: the first state with a step to it. The states are taken from the last to the first, so that the first is
//! written last. Costs one write for each cell.

ghost use Rattle.std.specs.Prelude.{◌+◌, ◌<◌, IfOk};
ghost use Rattle.least_paths.specs.Nets.{IsClosed};
ghost use Rattle.least_paths.specs.Arrivals.{AreParents};

use crate::nets::Graph;
use lash_io::Memory;
use std::alloc::Global;

/// Makes a state the parent of each state that it has a step to.
fn mark_row<G: Graph>(graph: &G, state: u32, parents: &mut Vec<u32>)
    requires closed { IsClosed (G.net graph.now) }
    requires state { state < (G.net graph.now).states }
    requires before { AreParents (G.net graph.now) (state + 1) 0 parents.old.items }
    ensures { AreParents (G.net graph.now) state 0 parents.new.items }
{
    for letter in 0..graph.width() {
        parents[graph.follow(state, letter) as usize] = state;
    }
}

/// The parent of each state that has one.
pub(crate) fn parents_of<G: Graph>(alloc: Global, graph: &G) -> Result<Vec<u32>, Memory>
    requires { IsClosed (G.net graph.now) }
    ensures { IfOk result (λ parents. AreParents (G.net graph.now) 0 0 parents.items) }
{
    let mut parents = match vec![in alloc; 0; graph.states() as usize] {
        Ok(parents) => parents,
        Err(_) => return Err(Memory),
    };
    for state in (0..graph.states()).rev() {
        mark_row(graph, state, &mut parents);
    }
    Ok(parents)
}
