//! Why a table is not built.

use thiserror::Error;

/// Why an exploration gives no table: its cells pass the limit, or there was no memory.
#[derive(Clone, Copy, Debug, PartialEq, Eq, Error)]
pub enum ExploreError {
    #[error("the exploration is too heavy")]
    Heavy,
    #[error("there is no memory")]
    Memory,
}

/// Why a construction gives no table: its cells pass the limit, or there was no memory.
#[derive(Clone, Copy, Debug, PartialEq, Eq, Error)]
pub enum BuildError {
    #[error("the construction is too heavy")]
    Heavy,
    #[error("there is no memory")]
    Memory,
}
