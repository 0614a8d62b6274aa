//! Truth functions of automata: products and complements, and the whole numbers of a table with fraction states.
#![tactic(auto)]

mod fraction_pairs;
mod laws;
mod negation;
mod operation;
mod outputs;
mod pairs;
mod reading;
mod restriction;
mod synchronous;
mod track_map;

pub use laws::{heavy_or_mixed_pairs, heavy_or_pairs, operands_read_lassos, operands_read_words};
pub use negation::complement;
pub use operation::Op;
pub use restriction::restrict_to_ints;
pub use synchronous::product;
pub use track_map::{TrackMap, all_tracks};

#[cfg(test)]
mod tests;
#[cfg(test)]
mod weak_tests;
