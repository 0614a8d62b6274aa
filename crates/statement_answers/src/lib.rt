//! Statements answered over kept sets: what is written for each, and the sets that are kept with their automata.
#![tactic(auto)]

mod answering;
mod building;
mod errors;
mod laws;
mod library;
mod looping;
mod settings;

pub use answering::answer;
pub use errors::Unanswered;
pub use laws::answers_have_one_cause;
pub use library::Library;
pub use settings::Settings;
