//! Answers of canonical tables about their sets: a solution, members, equality, inclusion and truth.
#![tactic(auto)]

mod agreement;
mod errors;
mod inclusion;
mod laws;
mod lines;
mod membership;
mod solving;

pub use agreement::{equal, holds};
pub use errors::WriteError;
pub use inclusion::subset;
pub use laws::{
    answers_are_unique, empty_where_nothing_solves, fractions_have_vectors,
    texts_are_equal_where_sets_agree,
};
pub use membership::contains;
pub use solving::write_solution;

#[cfg(test)]
mod tests;
