//! Why no piece is given.

use thiserror::Error;

/// Why no piece is given: a read met a fault, or the piece ahead has too many bytes.
#[derive(Clone, Copy, Debug, PartialEq, Eq, Error)]
pub enum PieceError {
    /// A read met a fault, which the source counted.
    #[error("a read met a fault")]
    Read,
    /// The piece ahead has a byte number 65,537, no later than the script's byte number 16,777,217.
    #[error("a statement has too many bytes")]
    StatementBytes,
    /// The piece ahead has the script's byte number 16,777,217, before a byte number 65,537 of its own.
    #[error("the script has too many bytes")]
    ScriptBytes,
}
