//! Weak forms of tables that are read by their marks.
#![tactic(auto)]

mod arrivals;
mod co_table;
mod doubling;
mod errors;
mod finding;
mod loops;
mod marks;
mod torn;
mod ways;
mod weakening;

pub use co_table::CoTable;
pub use errors::WeakError;
pub use weakening::weaken;

#[cfg(test)]
mod tests;
