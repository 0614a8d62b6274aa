//! Formulas of linear arithmetic over integers and reals, compiled to canonical automata.
#![tactic(auto)]

mod atoms;
mod binding;
mod build;
mod compiling;
mod declaring;
mod errors;
mod joining;
mod laws;
mod minimizing;
mod negation;
mod nodes;
mod positions;
mod wholes;

pub use build::Mode;
pub use compiling::compile;
pub use errors::CompileError;
pub use laws::{refusals_are_one, refused_or_compiled, tables_are_unique};

#[cfg(test)]
mod tests;
