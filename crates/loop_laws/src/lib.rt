//! The laws of loops: the closure of a loop as a formula, and what it means by iteration.
#![tactic(auto)]

mod laws;

pub use laws::{closure_joins_turns, counted_closure_counts_turns};
