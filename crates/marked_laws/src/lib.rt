//! Laws of marked tables: automata with fraction states that accept if no marked state is met from some place on. A weak table accepts the
//! same, or five words show that none does.
#![tactic(auto)]

mod weakening;

pub use weakening::{
    part_colours_weaken, shown_sets_have_no_weak_automaton, torn_or_weak_form,
    torn_parts_show_words, torn_words_are_one,
};
