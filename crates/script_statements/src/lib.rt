//! Statements of scripts, and how one is read from its tokens with one token in hand (recursive descent).
//!
//! Each reader gives what the parser of the grammar gives, and `read_statement` says what that means in terms of trees and their
//! spellings. The cost is linear in the number of tokens. Names and limits of numbers are not judged here.
#![tactic(auto)]

mod assignments;
mod guards;
mod reading;
mod statements;
#[cfg(test)]
mod tests;
mod tree;
mod values;

pub use reading::{NESTING_LIMIT, Refusal, one_outcome, read_statement};
pub use tree::{Assignment, Bound, Comprehension, Constraint, Loop, Rational, Statement};
