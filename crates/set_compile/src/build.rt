//! How the tables of one formula are built.

use digit_codes::Base;

/// What a formula's tables read.
#[derive(Clone, Copy, Debug, PartialEq, Eq)]
pub enum Mode {
    /// Words of whole numbers: all variables are integers, declared and bound.
    Whole,
    /// Lassos of fractions.
    Mixed,
}

/// What all steps of one formula share: what the tables read, their base, and the limit of cells of each step.
#[derive(Clone, Copy, Debug, PartialEq, Eq)]
pub(crate) struct Build {
    pub mode: Mode,
    pub base: Base,
    pub limit: u64,
}
