//! Why a table has no weak form.

use digit_codes::Word;
use std::fmt::{self, Debug, Formatter};
use thiserror::Error;

/// Why a table has no weak form. Either no weak automaton has its set, which these words show: after the sign vector, the whole part and the
/// stem, and however often the two last words are joined, the first of them for ever leads into the set, and no word that is joined and ends
/// in the second one does. Or there was no memory.
#[derive(Drop, Error)]
pub enum WeakError {
    #[error("no weak automaton has the set")]
    NotWeak {
        sign: u32,
        whole: Word,
        stem: Word,
        accept: Word,
        reject: Word,
    },
    #[error("there is no memory")]
    Memory,
}

impl Debug for WeakError {
    fn fmt<W: fmt::Write>(&self, f: &mut Formatter<W>) -> fmt::Result {
        match self {
            WeakError::NotWeak { .. } => f.write_str("NotWeak"),
            WeakError::Memory => f.write_str("Memory"),
        }
    }
}
