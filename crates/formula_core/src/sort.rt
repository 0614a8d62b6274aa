//! Sorts of variables.

/// What a variable ranges over.
#[derive(Clone, Copy, PartialEq, Eq, Debug)]
pub enum Sort {
    Int,
    Real,
}
