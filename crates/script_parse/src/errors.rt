//! Why no statement is given.

use script_meaning::Which;
use script_names::NameFault;
use thiserror::Error;

/// Why no statement is given. A place is the number of script bytes before the token, or before the end, that is meant.
#[derive(Clone, Copy, Debug, PartialEq, Eq, Error)]
pub enum ScriptError {
    /// A read met a fault, which the source counted, before the bytes held a whole statement.
    #[error("a read met a fault")]
    Read,
    /// A limit is passed, the first in the order of `Which`.
    #[error("a limit is passed")]
    Limit { which: Which },
    /// A statement begins with the tokens before the place, and none with the token there too.
    #[error("the syntax is wrong")]
    Syntax { place: u64 },
    /// The name at the place is the first wrong one.
    #[error("a name is wrong")]
    Name { fault: NameFault, place: u64 },
    #[error("no memory")]
    Memory,
}
