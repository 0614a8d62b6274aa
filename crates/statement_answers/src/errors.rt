//! Why a statement is not answered.

use digit_codes::Word;
use script_meaning::Which;
use std::fmt::{self, Debug, Formatter, Write};
use thiserror::Error;

/// Why a statement is not answered.
#[derive(Drop, Error)]
pub enum Unanswered {
    /// A construction has more cells than the limit.
    #[error("a construction has too many cells")]
    Heavy,
    /// No weak automaton has the set of a formula that binds a variable, as five words over its free variables show: a sign vector and a whole
    /// part, a stem, and two words that are not empty. However the two are joined after the stem, the first one for ever leads into the set,
    /// and no word that is joined and ends in the second one does.
    #[error("no weak automaton has a set")]
    NotWeak {
        sign: u32,
        whole: Word,
        stem: Word,
        accept: Word,
        reject: Word,
    },
    /// No power of a loop's matrix comes again.
    #[error("the loop has no power")]
    NoPower,
    /// The closure of a loop passes a limit, the first in the order `Nodes`, `Depth`, `Coefficient`, `Constant`, `Letters`.
    #[error("the closure of the loop passes a limit")]
    Closure {
        which: Which,
    },
    /// The kept sets would have more than 67,108,864 cells together.
    #[error("the kept sets have too many cells")]
    KeptCells,
    /// The sink met a fault, which it counted.
    #[error("the sink met a fault")]
    Fault,
    #[error("no memory")]
    Memory,
}

impl Debug for Unanswered {
    fn fmt<W: Write>(&self, f: &mut Formatter<W>) -> Result<(), fmt::Error> {
        f.write_str(match self {
            Unanswered::Heavy => "Heavy",
            Unanswered::NotWeak { .. } => "NotWeak",
            Unanswered::NoPower => "NoPower",
            Unanswered::Closure { .. } => "Closure",
            Unanswered::KeptCells => "KeptCells",
            Unanswered::Fault => "Fault",
            Unanswered::Memory => "Memory",
        })
    }
}
