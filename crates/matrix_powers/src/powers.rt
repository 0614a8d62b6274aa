//! The powers of a matrix, and the least one from which on they come again.

ghost use Rattle.std.specs.Prelude.{◌≡◌, ◌≤◌, ◌<◌, ◌+◌, IfOk, length};
ghost use Rattle.matrix_powers.specs.Powers.{IsPowerAnswer};
ghost use Rattle.matrix_powers.specs.Products.{ArePowers, IsExtended, IsExtendedTwice, IsPowerOf, IsSmall};

use crate::matrix::Matrix;
use crate::products::product;
use lash_io::Memory;
use std::alloc::Global;

// The greatest exponent that is tried.
const LIMIT: u32 = 12;

/// The 0-th power alone. Condition: the matrix has entries of at most 2^40 in magnitude.
///
/// # Errors
/// `Memory` if the program is out of memory.
pub fn first_power(alloc: Global, matrix: &Matrix) -> Result<Vec<Matrix>, Memory>
    requires { IsSmall matrix.now }
    ensures powers { IfOk result (λ ms. ArePowers matrix.now ms.items) }
    ensures one { IfOk result (λ ms. length ms.items ≡ 1) }
{
    let mut powers = Vec::new(alloc);
    let identity = Matrix::identity(alloc, matrix.side())?;
    match powers.push(identity) {
        Ok(()) => Ok(powers),
        Err(_) => Err(Memory),
    }
}

/// The power after those that were made.
///
/// # Errors
/// `Memory` if the program is out of memory.
pub fn next_power(alloc: Global, matrix: &Matrix, powers: &[Matrix]) -> Result<Matrix, Memory>
    requires { ArePowers matrix.now powers.now }
    ensures { IfOk result (λ m. IsPowerOf matrix.now (length powers.now) m) }
{
    let last = &powers[powers.len() - 1];
    match product(alloc, matrix, last) {
        Ok(next) => Ok(next),
        Err(error) => Err(error),
    }
}

// Makes one power more, unless one of its entries passes 2^40 in magnitude.
fn extend(alloc: Global, matrix: &Matrix, powers: &mut Vec<Matrix>) -> Result<bool, Memory>
    requires { ArePowers matrix.now powers.old.items }
    ensures { IfOk result (λ more. IsExtended matrix.now powers.old.items powers.new.items more) }
{
    let next = next_power(alloc, matrix, powers)?;
    if !next.is_small() {
        return Ok(false);
    }
    match powers.push(next) {
        Ok(()) => Ok(true),
        Err(_) => Err(Memory),
    }
}

// Makes two powers more, unless an entry passes 2^40 in magnitude.
fn extend_twice(alloc: Global, matrix: &Matrix, powers: &mut Vec<Matrix>) -> Result<bool, Memory>
    requires { ArePowers matrix.now powers.old.items }
    ensures { IfOk result (λ more. IsExtendedTwice matrix.now powers.old.items powers.new.items more) }
{
    match extend(alloc, matrix, powers) {
        Ok(true) => match extend(alloc, matrix, powers) {
            Ok(more) => Ok(more),
            Err(error) => Err(error),
        },
        Ok(false) => Ok(false),
        Err(error) => Err(error),
    }
}

/// The least p from 1 to 12 with A^(2p) = A^p if no entry of A^1 to A^(2p) passes 2^40 in magnitude, or none. The entries of the matrix
/// may be any numbers of 128 bits.
///
/// # Errors
/// `Memory` if the program is out of memory.
pub fn power(alloc: Global, matrix: &Matrix) -> Result<Option<u32>, Memory>
    ensures { IfOk result (λ p. IsPowerAnswer matrix.now p) }
{
    // Every exponent has A^1 among its powers, so an entry that is too great leaves none.
    if !matrix.is_small() {
        return Ok(None);
    }
    let mut powers = first_power(alloc, matrix)?;
    for before in 0..LIMIT {
        match extend_twice(alloc, matrix, &mut powers) {
            Ok(true) => {}
            // Greater exponents have this power among theirs, and the smaller ones were tested.
            Ok(false) => return Ok(None),
            Err(error) => return Err(error),
        }
        let exponent = before + 1;
        if powers[exponent as usize].has_entries_of(&powers[(exponent + exponent) as usize]) {
            return Ok(Some(exponent));
        }
    }
    Ok(None)
}
