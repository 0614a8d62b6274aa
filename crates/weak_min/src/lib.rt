//! Canonical tables: the states that behave alike become one, and are numbered by their least paths.
#![tactic(auto)]

mod answers;
mod canon;
mod comparison;
mod copies;
mod diagrams;
mod fractions;
mod quotient;

pub use canon::{Canon, canonical};
pub use comparison::same;

#[cfg(test)]
mod tests;
#[cfg(test)]
mod weak_tests;
