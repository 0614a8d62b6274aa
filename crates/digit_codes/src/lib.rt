//! Letters, words and lassos: how the digits of vectors of numbers are written.
#![tactic(auto)]

mod base;
mod letter;
mod word;

pub use base::Base;
pub use letter::letter_digit;
pub use word::{Lasso, Word};

#[cfg(test)]
mod tests;
