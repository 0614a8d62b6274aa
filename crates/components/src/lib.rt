//! Parts of a graph: the states that reach each other, and which of them lie on loops; and ranks of the states of a weak graph.
#![tactic(auto)]

mod parts;
mod ranking;
mod search;
mod tables;
mod walk;

pub use parts::{Parts, parts_of};
pub use ranking::{is_weak, rank_colours, ranks_of};
pub use tables::{components, frac_rows_of};

#[cfg(test)]
mod tests;
