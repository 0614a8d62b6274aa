//! Laws of graphs: walks and exploration.
#![tactic(auto)]

mod exploration;
mod walks;

pub use exploration::{
    both_explored, first_of_two, heavy_or_explored, no_heavy_on_states, paths_lead_home,
    positions_follow_keys, second_of_two,
};
pub use walks::walks_join;
