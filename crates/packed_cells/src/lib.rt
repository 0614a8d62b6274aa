//! Lists of small numbers, in cells: of 32 bits each, or of so many bits as the numbers take.
#![tactic(auto)]

mod bits;
mod cells;
mod least;
mod packed;
mod plain;

pub use cells::Cells;
pub use packed::Packed;
pub use plain::Plain;

#[cfg(test)]
mod tests;
