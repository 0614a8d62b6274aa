//! The meaning of loops of scripts: which names are wrong, which limits are passed, and the matrix, the shift and the guard that they have.
#![tactic(auto)]

mod assignments;
mod bodies;
mod constraints;
mod judging;
mod listing;

pub use judging::{Looping, resolve_loop};
