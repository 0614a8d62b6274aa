//! The fixed solution of a canonical table, and membership.
#![tactic(auto)]

mod fractions;
mod laws;
mod picking;
mod scans;
mod stems;

pub use laws::{
    fixed_is_accepted, fixed_is_one, least_is_one, no_idle_letter, none_or_fixed, none_or_least,
};
pub use picking::{member, solution};

#[cfg(test)]
mod fraction_tests;
#[cfg(test)]
mod tests;
