//! Searches for the first start or letter of a kind. Each stops at the first that it finds.

ghost use Rattle.std.specs.Prelude.{◌<◌, IfNone, IfSome};
ghost use Rattle.least_paths.specs.Arrivals.{IsNoStart, IsFirstStart, HasLetter, IsFirstLetter};

use crate::nets::Graph;

/// The first start that is the state. None if there is none.
pub(crate) fn first_start<G: Graph>(graph: &G, state: u32) -> Option<u32>
    ensures none { IfNone result (IsNoStart (G.net graph.now) state) }
    ensures some { IfSome result (IsFirstStart (G.net graph.now) state) }
{
    for start in 0..graph.start_count() {
        if graph.begin(start) == state {
            return Some(start);
        }
    }
    None
}

/// The first letter that leads from the one state to the other. There is one.
pub(crate) fn first_letter<G: Graph>(graph: &G, from: u32, to: u32) -> u32
    requires from { from < (G.net graph.now).states }
    requires letter { HasLetter (G.net graph.now) from to }
    ensures { IsFirstLetter (G.net graph.now) from to result }
{
    for letter in 0..graph.width() {
        if graph.follow(from, letter) == to {
            return letter;
        }
    }
    unreachable!()
}
