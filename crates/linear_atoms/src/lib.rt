//! Tables of linear equations and inequations, over integers and over fractions, and of the whole numbers.
#![tactic(auto)]

mod atom;
mod bounds;
mod counts;
mod filling;
mod kind;
mod laws;
mod real;
mod thresholds;
mod totals;
mod whole;
mod window;

pub use atom::atom_int;
pub use kind::AtomKind;
pub use laws::{heavy_or_real_table, heavy_or_table};
pub use real::atom_real;
pub use whole::is_int;

#[cfg(test)]
mod tests;
