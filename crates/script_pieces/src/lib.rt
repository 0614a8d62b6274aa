//! The pieces of a script: bytes are taken from a source and cut into statements at each `;` outside comments.
#![tactic(auto)]

mod answers;
mod errors;
mod laws;
mod limits;
mod pieces;
mod search;
mod window;

pub use answers::Ahead;
pub use errors::PieceError;
pub use laws::{bytes_have_one_cut, cuts_go_on, cuts_in_order, refusals_exclude_each_other};
pub use pieces::Pieces;

#[cfg(test)]
mod tests;
