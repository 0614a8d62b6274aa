//! Why an answer was not written.

use thiserror::Error;

/// Why an answer was not written.
#[derive(Clone, Copy, Debug, PartialEq, Eq, Error)]
pub enum WriteError {
    /// The sink met a fault.
    #[error("a write met a fault")]
    Fault,
    /// There was not enough memory.
    #[error("there was not enough memory")]
    Memory,
}
