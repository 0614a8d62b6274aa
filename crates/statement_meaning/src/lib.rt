//! What statements of scripts ask, where sets are kept: their names and limits are judged, and calls stand there with the formulas of the kept
//! sets.
#![tactic(auto)]

mod finding;
mod judging;
mod laws;
mod loops;
mod sets;
mod statement;
mod vectors;

pub use judging::judge;
pub use laws::judgements_exclude_each_other;
pub use statement::{Statement, Values};

#[cfg(test)]
mod tests;
