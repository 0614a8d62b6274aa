//! How many nodes the closure has, by arithmetic, so that none is built that has too many.

ghost use Rattle.std.specs.Prelude.{◌≡◌, ◌≤◌, ◌+◌, ◌*◌, ◌^◌, nat_lt};
ghost use Rattle.formula_core.specs.Counts.{nodes_of};
ghost use Rattle.loop_closure.specs.Bodies.{body_of};
ghost use Rattle.loop_closure.specs.Closing.{IsBody};
ghost use Rattle.loop_closure.specs.Counting.{AreSmall, count_nodes, turn_nodes, turns_nodes};
ghost use Rattle.loop_laws.specs.Closures.{closure_of};
ghost use Rattle.matrix_powers.specs.Matrices.{IsSquare};
ghost use Rattle.matrix_powers.specs.Powers.{powers_limit};
ghost use Rattle.term_substitution.specs.Limits.{nodes_limit};

use crate::body::LoopBody;
use formula_core::nodes;

/// The sizes that matter: of the guard with a node that joins it, of the vector, of the power, and of the equation of the number of turns.
#[derive(Clone, Copy)]
pub(crate) struct Sizes {
    pub guard: u64,
    pub side: u64,
    pub power: u64,
    pub count: u64,
}

// So many times a number of nodes.
fn times(number: u64, nodes: u64) -> u64
    requires number { number ≤ 12 }
    requires nodes { nodes ≤ 8196 }
    ensures value { result ≡ number * nodes }
    ensures small { result ≤ 12 * 8196 }
{
    number * nodes
}

// The nodes of the parts for so many turns, and for so many beyond a multiple of the power.
fn turn_nodes(sizes: Sizes, turns: u64) -> u64
    requires small { AreSmall sizes }
    requires turns { turns ≤ 12 }
    ensures value { result ≡ turn_nodes sizes turns }
    ensures small { result ≤ 2 ^ 20 }
{
    let short = sizes.side * 2 + times(turns, sizes.guard) + sizes.count;
    let first = 3 + sizes.side * 2 + times(sizes.power, sizes.guard);
    let between = times(sizes.power, sizes.guard * 2 + 2);
    let last = times(turns, sizes.guard * 2) + sizes.count;
    short + (first + between + last)
}

// The nodes of all parts, one more than those of the closure.
fn all_nodes(sizes: Sizes) -> u64
    requires { AreSmall sizes }
    ensures { result ≡ turns_nodes sizes sizes.power }
{
    let mut sum = 0;
    for turns in 0..sizes.power {
        sum += turn_nodes(sizes, turns);
    }
    sum
}

// The nodes of the equation of the number of turns, with one that joins it.
fn count_nodes(counted: bool) -> u64
    ensures { result ≡ count_nodes counted }
{
    if counted { 2 } else { 0 }
}

/// Whether the closure has more than 4,096 nodes.
pub(crate) fn has_many_nodes(body: &LoopBody, power: u32, counted: bool) -> bool
    requires body { IsBody (body_of body.now) }
    requires some { 1 ≤ power }
    requires few { power ≤ powers_limit }
    ensures nodes { result ≡ nat_lt nodes_limit (nodes_of (closure_of counted (body_of body.now) power)) }
    ensures square { IsSquare body.now.matrix }
{
    let sizes = Sizes {
        guard: nodes(&body.guard) + 1,
        side: body.matrix.side() as u64,
        power: power as u64,
        count: count_nodes(counted),
    };
    all_nodes(sizes) > 4097
}
