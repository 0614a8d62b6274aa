//! The names of scripts: the variables in scope, the sets that are kept, and the first wrong name of a formula.
#![tactic(auto)]

mod calls;
mod kept;
mod listing;
mod names;
mod scope;

pub use calls::argument_names;
pub use kept::{Defs, Name};
pub use listing::variables;
pub use names::{FaultAt, NameError, NameFault, check_names, declare_all};
pub use scope::Scope;

#[cfg(test)]
mod tests;
