//! What a run is set to.

use digit_codes::Base;

/// The base in which digits are written, and the cells that one construction may have.
#[derive(Clone, Copy, Debug, PartialEq, Eq)]
pub struct Settings {
    pub base: Base,
    pub cells: u64,
}
