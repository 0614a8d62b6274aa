//! The outside world: sources of bytes, sinks for bytes, and their faults.
//!
//! Everything above reads through a `Source` and writes through a `Sink`, so that a run can be
//! tried on bytes in memory with faults at chosen calls, and is stated without any operating
//! system.
#![tactic(auto)]

mod adapters;
mod blocks;
mod ends;
mod in_memory;
mod numbers;

pub use adapters::{StdSink, StdSource};
pub use blocks::Block;
pub use ends::{Failed, Memory, Sink, Source};
pub use in_memory::{MemSink, MemSource};
pub use numbers::put_number;

#[cfg(test)]
mod tests;
