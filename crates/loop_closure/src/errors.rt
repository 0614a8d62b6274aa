//! Why a loop has no closure.

use thiserror::Error;

/// Why a loop is refused: its matrix has no power, or the first limit in this order that the closure passes anywhere, or want of memory.
#[derive(Clone, Copy, Debug, PartialEq, Eq, Error)]
pub enum LoopError {
    /// No power of the matrix from 1 to 12 comes again with entries of at most 2^40.
    #[error("no power of the matrix comes again")]
    NoPower,
    /// There are more than 4,096 nodes.
    #[error("the closure has too many nodes")]
    Nodes,
    /// The longest way down has more than 256 nodes.
    #[error("the closure is too deep")]
    Depth,
    /// The magnitudes of the coefficients of an atom sum to more than 2^24.
    #[error("the coefficients of an atom of the closure are too great")]
    Coefficient,
    /// The constant of an atom is more than 2^40 in magnitude.
    #[error("the constant of an atom of the closure is too great")]
    Constant,
    /// There is no memory.
    #[error("there is no memory")]
    Memory,
}
