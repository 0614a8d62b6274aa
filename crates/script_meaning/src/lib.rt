//! The meaning of statements: which names are wrong, which limits are passed, and the core formula that a tree stands for.
#![tactic(auto)]

mod atoms;
mod calls;
mod counts;
mod formulas;
mod laws;
mod limits;
mod literals;
mod resolving;
mod terms;

pub use calls::argument;
pub use formulas::core_formula;
pub use laws::{
    calls_ask_the_kept_set, comparisons_compare_values, connectives_mean_themselves,
    limits_exclude_each_other,
};
pub use limits::Which;
pub use literals::{has_great_literal, term_literal};
pub use resolving::{Refusal, Resolved, first_limit, resolve};
pub use terms::{constant, with_sign};

#[cfg(test)]
mod tests;
