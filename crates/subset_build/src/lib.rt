//! The projection of automata over integers along a track: the subset construction, which forgets the digits of one track.
#![tactic(auto)]

mod closure;
mod kept_letters;
mod laws;
mod marks;
mod outputs;
mod projection;
mod set_steps;
mod start_sets;
mod subsets;

pub use closure::sign_closure;
pub use laws::{heavy_or_subsets, start_sets_are_unique};
pub use projection::{explored_subsets, project_int};
pub use set_steps::{SetSteps, put_in_order};
pub use start_sets::StartSets;

#[cfg(test)]
mod tests;
