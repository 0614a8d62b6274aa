//! Loops: a turn is allowed where the guard holds at the current vector x, and leads to A x + b.

use formula_core::Formula;
use matrix_powers::{Matrix, Shift};

/// The matrix A, the shift b and the guard of a loop.
#[derive(Debug, Drop)]
pub struct LoopBody {
    pub matrix: Matrix,
    pub shift: Shift,
    pub guard: Formula,
}
