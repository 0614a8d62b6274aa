//! The command: a script is taken, each of its statements is answered, and a refusal is told.
#![tactic(auto)]

mod ending;
mod laws;
mod lines;
mod program;
mod session;
mod status;

pub use ending::{Ending, Refusal};
pub use laws::{good_scripts_finish, kept_loops_are_their_turns, runs_have_one_ending};
pub use lines::report;
pub use program::run;
pub use status::Status;

#[cfg(test)]
mod tests;
