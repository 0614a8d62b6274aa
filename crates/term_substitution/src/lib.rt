//! Substitution of linear terms for the free variables of formulas.
#![tactic(auto)]

mod errors;
mod images;
mod judging;
mod laws;
mod substitution;

pub use errors::FormError;
pub use judging::Passed;
pub use laws::substitution_replaces_values;
pub use substitution::{judge, replace, subst};

#[cfg(test)]
mod tests;
