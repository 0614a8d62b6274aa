//! Fractions, and why a vector of them has no code.

use thiserror::Error;

/// The fraction of an integer and a positive integer; not always in lowest terms.
#[derive(Clone, Copy, Debug, PartialEq, Eq)]
pub struct Ratio {
    pub num: i128,
    pub den: i128,
}

/// Why a vector was not encoded.
#[derive(Clone, Copy, Debug, PartialEq, Eq, Error)]
pub enum CodeError {
    /// The least common denominator passes 65,536.
    #[error("the least common denominator passes 65,536")]
    Denominator,
    /// There was not enough memory.
    #[error("there was not enough memory")]
    Memory,
}
