//! Why a formula has no substitution.

use thiserror::Error;

/// Why a formula is refused: the first limit in this order that it passes anywhere, or want of memory.
#[derive(Clone, Copy, Debug, PartialEq, Eq, Error)]
pub enum FormError {
    /// There are more than 4,096 nodes.
    #[error("the formula has too many nodes")]
    Nodes,
    /// The longest way down has more than 256 nodes.
    #[error("the formula is too deep")]
    Depth,
    /// The magnitudes of the coefficients of an atom sum to more than 2^24.
    #[error("the coefficients of an atom are too great")]
    Coefficient,
    /// The constant of an atom is more than 2^40 in magnitude.
    #[error("the constant of an atom is too great")]
    Constant,
    /// There is no memory.
    #[error("there is no memory")]
    Memory,
}
