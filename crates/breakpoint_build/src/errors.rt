//! Why a track is not forgotten.

use digit_codes::Word;
use std::fmt::{self, Debug, Formatter, Write};
use thiserror::Error;
use weak_forms::WeakError;

/// Why a track is not forgotten: the sets and breakpoint states pass the limit of cells, or no weak automaton has the result, as five words
/// show, or the program is out of memory.
#[derive(Drop, Error)]
pub enum RealError {
    #[error("a construction is too heavy")]
    Heavy,
    #[error("no weak automaton has the set")]
    NotWeak {
        sign: u32,
        whole: Word,
        stem: Word,
        accept: Word,
        reject: Word,
    },
    #[error("out of memory")]
    Memory,
}

impl Debug for RealError {
    fn fmt<W: Write>(&self, f: &mut Formatter<W>) -> Result<(), fmt::Error> {
        f.write_str(match self {
            RealError::Heavy => "Heavy",
            RealError::NotWeak { .. } => "NotWeak",
            RealError::Memory => "Memory",
        })
    }
}
