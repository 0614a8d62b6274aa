//! How a run ends, with what its line tells.

ghost use Rattle.std.specs.Prelude.{◌≡◌};
ghost use Rattle.lash_command.specs.Lines.{status_of};

use crate::status::Status;
use digit_codes::Word;
use script_meaning::Which;
use script_names::NameFault;

/// Why a statement is refused. A place is a number of script bytes.
#[derive(Drop)]
pub enum Refusal {
    /// No statement goes on with the token at the place.
    Syntax {
        place: u64,
    },
    /// The name at the place is the first wrong one.
    Name {
        fault: NameFault,
        place: u64,
    },
    /// The first limit that is passed.
    Limit {
        which: Which,
    },
    /// No power of a loop's matrix comes again.
    NoPower,
    /// A construction of its tables has more cells than the limit.
    Heavy,
    /// No weak automaton has the set of a formula that binds a variable, as a sign vector and four words over its free variables show.
    NotWeak {
        sign: u32,
        whole: Word,
        stem: Word,
        accept: Word,
        reject: Word,
    },
}

/// How a run ends. Statements are counted from 1.
#[derive(Drop)]
pub enum Ending {
    /// All statements are answered.
    Finished,
    /// The words are not those of the command.
    Usage,
    /// A statement is refused, and those before it are answered.
    Refused { statement: u64, refusal: Refusal },
    ReadFault,
    WriteFault,
    NoMemory,
    /// There are words, which are not built yet.
    Unbuilt,
}

impl Ending {
    /// The status that goes with it.
    pub fn status(&self) -> Status
        ensures { result ≡ status_of self.now }
    {
        match self {
            Ending::Finished => Status::Fine,
            Ending::Usage => Status::Usage,
            Ending::Refused { refusal, .. } => match refusal {
                Refusal::Syntax { .. } | Refusal::Name { .. } => Status::Script,
                Refusal::Limit { .. } | Refusal::Heavy => Status::TooLarge,
                Refusal::NoPower => Status::NoPower,
                Refusal::NotWeak { .. } => Status::NotWeak,
            },
            Ending::ReadFault => Status::ReadFault,
            Ending::WriteFault => Status::WriteFault,
            Ending::NoMemory => Status::NoMemory,
            Ending::Unbuilt => Status::Unbuilt,
        }
    }
}
