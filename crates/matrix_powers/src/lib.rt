//! Square matrices of integers, the powers of a matrix that come again, and the orbit of a shift.
#![tactic(auto)]

mod laws;
mod matrix;
mod orbit;
mod powers;
mod products;
mod shift;
mod sums;

pub use laws::{least_powers_are_unique, trial_finds_the_least_power};
pub use matrix::Matrix;
pub use orbit::Orbit;
pub use powers::power;
pub use shift::Shift;

#[cfg(test)]
mod tests;
