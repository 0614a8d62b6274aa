//! Sums of a shift and its images, row by row. Each image is at most 2^82 in magnitude at a row, since matrices and shifts have entries of at
//! most 2^40 and at most four rows.

ghost use Rattle.std.specs.Prelude.{◌≡◌, ◌≤◌, ◌<◌, ◌^◌, ◌+ℤ◌, ◌-ℤ◌, ◌*ℤ◌, IfOk, length, unsigned_abs};
ghost use Rattle.matrix_powers.specs.Matrices.{entry};
ghost use Rattle.matrix_powers.specs.Orbits.{at_row};
ghost use Rattle.matrix_powers.specs.Products.{IsSmall};
ghost use Rattle.matrix_powers.specs.Turns.{IsNextSum, IsWithin, image_entry};

use crate::matrix::Matrix;
use crate::shift::Shift;
use lash_io::Memory;
use std::alloc::Global;

// An entry of the matrix times one of the shift.
fn part(matrix: &Matrix, shift: &Shift, row: u32, at: u32) -> i128
    requires side { length shift.now ≡ matrix.now.side }
    requires matrix { IsSmall matrix.now }
    requires shift { IsWithin (2 ^ 40) shift.now }
    requires row { row < matrix.now.side }
    requires at { at < matrix.now.side }
    ensures value { result ≡ entry matrix.now row at *ℤ at_row shift.now at }
    ensures small { unsigned_abs result ≤ 2 ^ 80 }
{
    matrix.get(row, at) * shift.get(at)
}

// The row of the matrix times the shift.
fn image_row(matrix: &Matrix, shift: &Shift, row: u32) -> i128
    requires side { length shift.now ≡ matrix.now.side }
    requires matrix { IsSmall matrix.now }
    requires shift { IsWithin (2 ^ 40) shift.now }
    requires row { row < matrix.now.side }
    ensures value { result ≡ image_entry matrix.now shift.now row }
    ensures small { unsigned_abs result ≤ 2 ^ 82 }
{
    let mut sum = 0;
    for at in 0..matrix.side() {
        sum += part(matrix, shift, row, at);
    }
    sum
}

// The row of a sum and the shift's image.
fn next_row(sum: &Shift, matrix: &Matrix, shift: &Shift, row: u32) -> i128
    requires length { length sum.now ≡ matrix.now.side }
    requires sum { IsWithin (2 ^ 88) sum.now }
    requires side { length shift.now ≡ matrix.now.side }
    requires matrix { IsSmall matrix.now }
    requires shift { IsWithin (2 ^ 40) shift.now }
    requires row { row < length sum.now }
    ensures { result ≡ at_row sum.now row +ℤ image_entry matrix.now shift.now row }
{
    sum.get(row) + image_row(matrix, shift, row)
}

/// A sum and the image of the shift. Conditions: all have as many rows; the entries of matrix and shift are at most 2^40 in magnitude, and
/// those of the sum at most 2^88.
///
/// # Errors
/// `Memory` if the program is out of memory.
pub fn next_sum(alloc: Global, sum: &Shift, matrix: &Matrix, shift: &Shift) -> Result<Shift, Memory>
    requires length { length sum.now ≡ matrix.now.side }
    requires sum { IsWithin (2 ^ 88) sum.now }
    requires side { length shift.now ≡ matrix.now.side }
    requires matrix { IsSmall matrix.now }
    requires shift { IsWithin (2 ^ 40) shift.now }
    ensures { IfOk result (λ s. IsNextSum matrix.now shift.now sum.now s) }
{
    let mut entries = Vec::new(alloc);
    for row in 0..sum.side() {
        match entries.push(next_row(sum, matrix, shift, row)) {
            Ok(()) => {}
            Err(_) => return Err(Memory),
        }
    }
    Ok(Shift::of_entries(entries))
}

/// The difference of two sums at a row. Conditions: the row is below the number of rows of both; their entries are at most 2^88 in magnitude.
pub fn difference(after: &Shift, before: &Shift, row: u32) -> i128
    requires after { IsWithin (2 ^ 88) after.now }
    requires before { IsWithin (2 ^ 88) before.now }
    requires row_after { row < length after.now }
    requires row_before { row < length before.now }
    ensures { result ≡ at_row after.now row -ℤ at_row before.now row }
{
    after.get(row) - before.get(row)
}
