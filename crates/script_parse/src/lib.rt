//! Statements of scripts over a source: what each asks, or why it is refused.
#![tactic(auto)]

mod errors;
mod laws;
mod piece;
mod reader;

pub use errors::ScriptError;
pub use laws::{answers_exclude_each_other, statements_come_in_order};
pub use reader::Statements;

#[cfg(test)]
mod tests;
