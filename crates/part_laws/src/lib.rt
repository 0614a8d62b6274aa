//! Laws of graphs with colours: ends of runs, weak graphs, their parts and ranks, images and pairs, and the one canonical table with
//! fraction states.
#![tactic(auto)]

mod canonical;
mod endings;
mod images;
mod parts;
mod ranks;
mod tables;

pub use canonical::{
    canonical_tables_are_unique, canonical_tables_tell_sets, some_table_is_canonical,
};
pub use endings::{loops_decide, runs_come_back};
pub use images::{images_accept_alike, matched_states_accept_alike, pairs_accept_by_truth};
pub use parts::{parts_tell_weakness, ranks_are_reckoned_by_parts};
pub use ranks::{
    alike_states_have_one_rank, looping_states_have_their_colour, recolouring_keeps_lassos,
};
pub use tables::{
    class_tables_are_canonical, explored_classes_are_canonical, explored_pairs_accept_by_truth,
    matched_tables_are_canonical, opposites_accept_the_others, recoloured_tables_accept_the_same,
    table_pairs_accept_by_truth,
};
