//! The closure of an affine loop.
#![tactic(auto)]

mod body;
mod branches;
mod builder;
mod closures;
mod counts;
mod errors;
mod laws;
mod limits;
mod members;
mod parts;
mod repeats;
mod terms;

pub use body::LoopBody;
pub use closures::{closure, closure_counted};
pub use errors::LoopError;
pub use laws::closures_exclude_each_other;

#[cfg(test)]
mod tests;
