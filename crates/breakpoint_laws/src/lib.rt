//! Laws of the projection of a track of an automaton with fraction states by breakpoints (Miyano and Hayashi).
#![tactic(auto)]

mod projection;

pub use projection::{
    bound_integers_are_last, bound_reals_are_last, breakpoint_tables_are_one,
    breakpoint_tables_complete, breakpoint_tables_project, heavy_or_breakpoints, keys_stay_proper,
};
