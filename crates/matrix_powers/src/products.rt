//! Products of matrices whose entries are at most 2^40 in magnitude. With at most four rows their sums stay within 4 * 2^80.

ghost use Rattle.std.specs.Prelude.{◌≡◌, ◌≤◌, ◌<◌, ◌^◌, ◌*ℤ◌, IfOk, unsigned_abs};
ghost use Rattle.matrix_powers.specs.Matrices.{entry};
ghost use Rattle.matrix_powers.specs.Products.{IsSmall, IsProduct, product_entry};

use crate::matrix::Matrix;
use lash_io::Memory;
use std::alloc::Global;

// The entry of the left matrix's row times that of the right one's column.
fn entry_product(left: &Matrix, right: &Matrix, row: u32, at: u32, column: u32) -> i128
    requires side { right.now.side ≡ left.now.side }
    requires left { IsSmall left.now }
    requires right { IsSmall right.now }
    requires row { row < left.now.side }
    requires at { at < left.now.side }
    requires column { column < left.now.side }
    ensures value { result ≡ entry left.now row at *ℤ entry right.now at column }
    ensures small { unsigned_abs result ≤ 2 ^ 80 }
{
    left.get(row, at) * right.get(at, column)
}

// The left matrix's row times the right one's column.
fn row_times_column(left: &Matrix, right: &Matrix, row: u32, column: u32) -> i128
    requires side { right.now.side ≡ left.now.side }
    requires left { IsSmall left.now }
    requires right { IsSmall right.now }
    requires row { row < left.now.side }
    requires column { column < left.now.side }
    ensures { result ≡ product_entry left.now right.now row column }
{
    let mut sum = 0;
    for at in 0..left.side() {
        sum += entry_product(left, right, row, at, column);
    }
    sum
}

/// The left matrix times the right one. Conditions: they have as many rows, and entries of at most 2^40 in magnitude.
///
/// # Errors
/// `Memory` if the program is out of memory.
pub fn product(alloc: Global, left: &Matrix, right: &Matrix) -> Result<Matrix, Memory>
    requires side { right.now.side ≡ left.now.side }
    requires left { IsSmall left.now }
    requires right { IsSmall right.now }
    ensures { IfOk result (λ m. IsProduct left.now right.now m) }
{
    let side = left.side();
    let mut entries = Vec::new(alloc);
    for at in 0..side * side {
        match entries.push(row_times_column(left, right, at / side, at % side)) {
            Ok(()) => {}
            Err(_) => return Err(Memory),
        }
    }
    Ok(Matrix::of_rows(side, entries))
}
