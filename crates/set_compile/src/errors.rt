//! Why a formula has no table.

use digit_codes::Word;
use std::fmt::{self, Debug, Formatter, Write};
use thiserror::Error;

/// Why a formula is not compiled: the first step that is refused passes the limit of cells, or no weak automaton has its set, as five words
/// show; or the program is out of memory, or has no numbers for the places of all the variables that are bound in one another, which is told
/// as the same.
///
/// The words are over the free variables of the formula that binds: a sign vector and a whole part, a stem, and two words that are not
/// empty. However the two are joined after the stem, the first one for ever leads into the set, and no word that is joined and ends in the
/// second one does.
#[derive(Drop, Error)]
pub enum CompileError {
    #[error("a construction is too heavy")]
    Heavy,
    #[error("no weak automaton has the set")]
    NotWeak {
        sign: u32,
        whole: Word,
        stem: Word,
        accept: Word,
        reject: Word,
    },
    #[error("out of memory")]
    Memory,
}

impl Debug for CompileError {
    fn fmt<W: Write>(&self, f: &mut Formatter<W>) -> Result<(), fmt::Error> {
        f.write_str(match self {
            CompileError::Heavy => "Heavy",
            CompileError::NotWeak { .. } => "NotWeak",
            CompileError::Memory => "Memory",
        })
    }
}
