//! Powers of small matrices, and orbits of one variable, worked out by hand.

ghost use Rattle.std.specs.Prelude.{◌≡◌, ◌≤◌, ◌^◌, IfOk, unsigned_abs};
ghost use Rattle.matrix_powers.specs.Orbits.{IsShift};

use super::*;
use lash_io::Memory;
use std::alloc::Global;
use std::test::Fail;

// The matrix of this entry alone.
fn single(alloc: Global, entry: i128) -> Result<Matrix, Memory>
    ensures { IfOk result (λ m. m.side ≡ 1) }
{
    match Matrix::identity(alloc, 1) {
        Ok(mut matrix) => {
            matrix.set(0, 0, entry);
            Ok(matrix)
        }
        Err(error) => Err(error),
    }
}

// The matrix that gives the second variable for the first, and the first for the second.
fn exchange(alloc: Global) -> Result<Matrix, Memory> {
    match Matrix::identity(alloc, 2) {
        Ok(mut matrix) => {
            matrix.set(0, 0, 0);
            matrix.set(0, 1, 1);
            matrix.set(1, 0, 1);
            matrix.set(1, 1, 0);
            Ok(matrix)
        }
        Err(error) => Err(error),
    }
}

// The power of the matrix of one entry.
fn power_of(alloc: Global, entry: i128) -> Result<Option<u32>, Memory> {
    match single(alloc, entry) {
        Ok(matrix) => power(alloc, &matrix),
        Err(error) => Err(error),
    }
}

fn power_of_exchange(alloc: Global) -> Result<Option<u32>, Memory> {
    match exchange(alloc) {
        Ok(matrix) => power(alloc, &matrix),
        Err(error) => Err(error),
    }
}

#[test]
fn variables_exchange(rt: HostRuntime) -> Result<(), Fail> {
    assert!(rt; matches!(power_of_exchange(rt.alloc()), Ok(Some(2))));
    Ok(())
}

#[test]
fn doubling_has_no_power(rt: HostRuntime) -> Result<(), Fail> {
    assert!(rt; matches!(power_of(rt.alloc(), 2), Ok(None)));
    Ok(())
}

#[test]
fn great_entries_have_no_power(rt: HostRuntime) -> Result<(), Fail> {
    assert!(rt; matches!(power_of(rt.alloc(), i128::MIN), Ok(None)));
    Ok(())
}

#[test]
fn standing_has_power_one(rt: HostRuntime) -> Result<(), Fail> {
    assert!(rt; matches!(power_of(rt.alloc(), 1), Ok(Some(1))));
    Ok(())
}

#[test]
fn turning_round_has_power_two(rt: HostRuntime) -> Result<(), Fail> {
    assert!(rt; matches!(power_of(rt.alloc(), -1), Ok(Some(2))));
    Ok(())
}

// The shift of this entry alone.
fn step(alloc: Global, entry: i128) -> Result<Shift, Memory>
    requires { unsigned_abs entry ≤ 2 ^ 40 }
    ensures { IfOk result (λ s. IsShift 1 s) }
{
    match Shift::zero(alloc, 1) {
        Ok(mut shift) => {
            shift.set(0, entry);
            Ok(shift)
        }
        Err(error) => Err(error),
    }
}

// The orbit of `entry * x + shift`, if the entry has a power.
fn orbit_of(alloc: Global, entry: i128, shift: i128) -> Option<Orbit>
    requires { unsigned_abs shift ≤ 2 ^ 40 }
{
    let matrix = single(alloc, entry).ok()?;
    let shift = step(alloc, shift).ok()?;
    match power(alloc, &matrix) {
        Ok(Some(power)) => Orbit::new(alloc, &matrix, &shift, power).ok(),
        _ => None,
    }
}

// Whether what three iterations add, and the stride, are these, in an orbit of one row and a power of at most 2.
fn leads(orbit: &Orbit, three: i128, stride: i128) -> bool {
    orbit.side() == 1
        && orbit.power() <= 2
        && orbit.constant(3, 0) == three
        && orbit.stride(0, 0) == stride
}

#[test]
fn steps_add_up(rt: HostRuntime) -> Result<(), Fail> {
    let orbit = orbit_of(rt.alloc(), 1, 7).ok_or("no orbit")?;
    assert!(rt; leads(&orbit, 21, 7));
    Ok(())
}

#[test]
fn turning_round_comes_back(rt: HostRuntime) -> Result<(), Fail> {
    let orbit = orbit_of(rt.alloc(), -1, 7).ok_or("no orbit")?;
    assert!(rt; leads(&orbit, 7, 0));
    Ok(())
}
