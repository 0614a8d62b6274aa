//! Least paths to the states of a graph, by breadth-first search. A graph is the integer part of a table, or what was explored.
#![tactic(auto)]

mod nets;
mod parents;
mod row_steps;
mod scans;
mod searches;
mod walking;

pub use nets::{Graph, Search};
pub use row_steps::{RowSteps, explored_rows};
pub use searches::{first_place, place};
pub use walking::{Trail, least_path};

#[cfg(test)]
mod tests;
