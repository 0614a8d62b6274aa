//! The projection of automata over reals along a track: breakpoints, which forget the digits of one track (Miyano and Hayashi; for real
//! numbers Boigelot, Jodogne and Wolper).
#![tactic(auto)]

mod breakpoints;
mod colours;
mod errors;
mod keys;
mod laws;
mod marked;
mod projection;

pub use errors::RealError;
pub use laws::heavy_or_projected;
pub use projection::project_real;
