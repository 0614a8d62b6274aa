//! The text of automata: writing it.
#![tactic(auto)]

mod header;
mod lines;
mod pieces;
mod states;
mod write;

pub use header::Header;
pub use write::{write_table, write_text};

#[cfg(test)]
mod tests;
