//! The codes of a run.

ghost use Rattle.std.specs.Prelude.{◌≡◌};
ghost use Rattle.lash_command.specs.Lines.{code_of};

/// How a run ends: it answered, or why it did not.
#[derive(Clone, Copy, Debug, PartialEq, Eq)]
pub enum Status {
    Fine,
    Usage,
    Script,
    TooLarge,
    NoPower,
    NotWeak,
    ReadFault,
    WriteFault,
    NoMemory,
    Unbuilt,
}

impl Status {
    /// The code that the program ends with: 0 to 9, in the order of the variants.
    pub fn code(&self) -> u8
        ensures { result ≡ code_of self.now }
    {
        match self {
            Status::Fine => 0,
            Status::Usage => 1,
            Status::Script => 2,
            Status::TooLarge => 3,
            Status::NoPower => 4,
            Status::NotWeak => 5,
            Status::ReadFault => 6,
            Status::WriteFault => 7,
            Status::NoMemory => 8,
            Status::Unbuilt => 9,
        }
    }
}
