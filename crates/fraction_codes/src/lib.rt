//! Vectors of fractions in digits: the fixed code of a vector as a lasso, the fraction of a track read back, and the text of a
//! track's digits.
#![tactic(auto)]

mod common;
mod division;
mod encoding;
mod laws;
mod parts;
mod ratio;
mod reading;
mod returning;
mod signs;
mod text;

pub use common::common_denominator;
pub use encoding::encode;
pub use laws::{code_or_too_fine, vectors_have_lassos};
pub use ratio::{CodeError, Ratio};
pub use reading::value;
pub use text::digits_text;

#[cfg(test)]
mod tests;
