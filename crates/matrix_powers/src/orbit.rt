//! Where iterations of an affine map lead, when the powers of its matrix come again.

ghost use Rattle.std.specs.Prelude.{◌≡◌, ◌≤◌, ◌<◌, ◌+◌, ◌*◌, ◌^◌, IfOk, List, ℤ, length, unsigned_abs};
ghost use Rattle.matrix_powers.specs.Matrices.{IsSquare, power_entry};
ghost use Rattle.matrix_powers.specs.Powers.{IsPower, powers_limit};
ghost use Rattle.matrix_powers.specs.Products.{ArePowers};
ghost use Rattle.matrix_powers.specs.Orbits.{IsShift, shifted, stride};
ghost use Rattle.matrix_powers.specs.Turns.{AreSums, IsReduced};

use crate::matrix::Matrix;
use crate::powers::{first_power, next_power};
use crate::shift::Shift;
use crate::sums::{difference, next_sum};
use lash_io::Memory;
use std::alloc::Global;
use std::marker::Model;

/// A matrix, a shift and a power p of the matrix, with the powers A^0 to A^(2p) and the sums b + A b + .. of up to 3p terms.
#[derive(Debug, Drop)]
pub struct Orbit {
    matrix: Matrix,
    shift: Shift,
    power: u32,
    powers: Vec<Matrix>,
    sums: Vec<Shift>,
}

impl Model for Orbit {
    ghost use Rattle.matrix_powers.specs.Orbits.{Route};
    ghost use Rattle.matrix_powers.specs.Turns.{IsOrbit};

    ghost Value = { Route };

    ghost view = { λ o. record { matrix = o.matrix; shift = o.shift; power = o.power } };

    ghost invariant = { λ o. IsOrbit (record { matrix = o.matrix; shift = o.shift; power = o.power }) o.powers.items o.sums.items };
}

impl Orbit {
    /// The orbit of a matrix, a shift and a power of the matrix from 1 to 12. Conditions: the shift has an entry for each row, of at most
    /// 2^40 in magnitude; A^(2p) = A^p, and no entry of A^1 to A^(2p) passes 2^40 in magnitude.
    ///
    /// # Errors
    /// `Memory` if the program is out of memory.
    pub fn new(alloc: Global, matrix: &Matrix, shift: &Shift, power: u32) -> Result<Orbit, Memory>
        requires some { 1 ≤ power }
        requires few { power ≤ powers_limit }
        requires power { IsPower matrix.now power }
        requires shift { IsShift matrix.now.side shift.now }
        ensures { IfOk result (λ o. o ≡ record { matrix = matrix.now; shift = shift.now; power = power }) }
    {
        let powers = powers_upto(alloc, matrix, power)?;
        let sums = sums_upto(alloc, matrix, shift, power, &powers)?;
        let matrix = matrix.copied(alloc)?;
        match shift.copied(alloc) {
            Ok(shift) => Ok(Orbit {
                matrix,
                shift,
                power,
                powers,
                sums,
            }),
            Err(error) => Err(error),
        }
    }

    /// The number of rows, from 1 to 4.
    pub fn side(&self) -> u32
        ensures value { result ≡ self.now.matrix.side }
        ensures square { IsSquare self.now.matrix }
    {
        self.matrix.side()
    }

    /// The power, from 1 to 12.
    pub fn power(&self) -> u32
        ensures value { result ≡ self.now.power }
        ensures some { 1 ≤ self.now.power }
        ensures few { self.now.power ≤ powers_limit }
    {
        self.power
    }

    /// The entry of a power of the matrix at a row and a column, at most 2^40 in magnitude. Conditions: at most 2p iterations; row and column
    /// are below the number of rows.
    pub fn coefficient(&self, turns: u32, row: u32, column: u32) -> i128
        requires turns { turns ≤ self.now.power + self.now.power }
        requires row { row < self.now.matrix.side }
        requires column { column < self.now.matrix.side }
        ensures value { result ≡ power_entry self.now.matrix turns row column }
        ensures small { unsigned_abs result ≤ 2 ^ 40 }
    {
        let power = &self.powers[turns as usize];
        power.get(row, column)
    }

    /// What so many iterations add at a row, at most 2^82 in magnitude for each iteration. Conditions: at most 3p iterations; the row is below the number
    /// of rows.
    pub fn constant(&self, turns: u32, row: u32) -> i128
        requires turns { turns ≤ self.now.power + self.now.power + self.now.power }
        requires row { row < self.now.matrix.side }
        ensures value { result ≡ shifted self.now.matrix self.now.shift turns row }
        ensures small { unsigned_abs result ≤ turns * 2 ^ 82 }
    {
        let sum = &self.sums[turns as usize];
        sum.get(row)
    }

    /// How far p more iterations lead at a row, after p iterations and as many more as the remainder. Conditions: the remainder is below p; the row
    /// is below the number of rows.
    pub fn stride(&self, remainder: u32, row: u32) -> i128
        requires remainder { remainder < self.now.power }
        requires row { row < self.now.matrix.side }
        ensures value { result ≡ stride self.now.matrix self.now.shift self.now.power remainder row }
        ensures small { unsigned_abs result ≤ self.now.power * 2 ^ 82 }
    {
        let after = &self.sums[(self.power + self.power + remainder) as usize];
        let before = &self.sums[(self.power + remainder) as usize];
        difference(after, before, row)
    }
}

// The powers up to twice the given one.
fn powers_upto(alloc: Global, matrix: &Matrix, power: u32) -> Result<Vec<Matrix>, Memory>
    requires some { 1 ≤ power }
    requires few { power ≤ powers_limit }
    requires power { IsPower matrix.now power }
    ensures powers { IfOk result (λ ms. ArePowers matrix.now ms.items) }
    ensures count { IfOk result (λ ms. length ms.items ≡ power + power + 1) }
{
    let mut powers = first_power(alloc, matrix)?;
    for _made in 0..power + power {
        let next = next_power(alloc, matrix, &powers)?;
        match powers.push(next) {
            Ok(()) => {}
            Err(_) => return Err(Memory),
        }
    }
    Ok(powers)
}

// An exponent of at most 2p with the same power.
fn reduced(turns: u32, power: u32) -> u32
    requires power { power ≤ powers_limit }
    ensures { IsReduced power turns result }
{
    if turns > power + power {
        turns - power
    } else {
        turns
    }
}

// The sums of up to 3p terms.
fn sums_upto(
    alloc: Global,
    matrix: &Matrix,
    shift: &Shift,
    power: u32,
    powers: &[Matrix],
) -> Result<Vec<Shift>, Memory>
    requires some { 1 ≤ power }
    requires few { power ≤ powers_limit }
    requires power { IsPower matrix.now power }
    requires shift { IsShift matrix.now.side shift.now }
    requires powers { ArePowers matrix.now powers.now }
    requires count { length powers.now ≡ power + power + 1 }
    ensures square { IsSquare matrix.now }
    ensures sums { IfOk result (λ ss. AreSums matrix.now shift.now ss.items) }
    ensures count { IfOk result (λ ss. length ss.items ≡ power + power + power + 1) }
{
    let mut sums = first_sum(alloc, matrix)?;
    for turns in 0..power + power + power {
        let sum = &sums[turns as usize];
        let exponent = reduced(turns, power);
        let next = next_sum(alloc, sum, &powers[exponent as usize], shift)?;
        match sums.push(next) {
            Ok(()) => {}
            Err(_) => return Err(Memory),
        }
    }
    Ok(sums)
}

// The sum of no terms alone.
fn first_sum(alloc: Global, matrix: &Matrix) -> Result<Vec<Shift>, Memory>
    ensures square { IsSquare matrix.now }
    ensures sums { IfOk result (λ ss. (shift : List ℤ) → AreSums matrix.now shift ss.items) }
    ensures one { IfOk result (λ ss. length ss.items ≡ 1) }
{
    let mut sums = Vec::new(alloc);
    let zero = Shift::zero(alloc, matrix.side())?;
    match sums.push(zero) {
        Ok(()) => Ok(sums),
        Err(_) => Err(Memory),
    }
}
