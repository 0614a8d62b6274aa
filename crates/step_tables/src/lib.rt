//! Tables of automata on digits, and the exploration of machines into such tables.
#![tactic(auto)]

mod answers;
mod breadth_first;
mod entries;
mod errors;
mod explored;
mod found;
mod machine;
mod rows;
mod table;

pub use answers::Answers;
pub use breadth_first::explore;
pub use errors::{BuildError, ExploreError};
pub use explored::Explored;
pub use machine::{Key, Machine};
pub use rows::Rows;
pub use table::{Table, pack};

#[cfg(test)]
mod tests;
