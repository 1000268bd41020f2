//! How a call of a program ends.

ghost use Rattle.std.specs.Prelude.{◌≡◌};
ghost use Rattle.call_verdict.specs.Statuses.{number_of};

/// How a call of a program ends.
#[derive(Clone, Copy, Debug, PartialEq, Eq)]
pub enum Status {
    /// The command was done, and nothing was found: every block is good, or no two differ.
    Whole,
    /// The command was done, and some block failed, or something was found.
    SomeBad,
    /// The words are not in the grammar.
    Words,
    /// What standard input gives is at fault: a script, in its text or over its volume, a line of commands, or a dump.
    Input,
    /// An image is at fault: its head, the answer of one of its devices, or the volume over them; or it hasn't the
    /// place of the words, or two places can't be compared.
    Image,
    /// The rig failed, or the store of an image.
    RigFault,
    /// Want of memory.
    Memory,
    /// The source failed.
    ReadFault,
    /// The sink failed.
    WriteFault,
}

impl Status {
    /// The exit status.
    pub fn number(self) -> u8
        ensures { result ≡ number_of self }
    {
        match self {
            Status::Whole => 0,
            Status::SomeBad => 1,
            Status::Words => 2,
            Status::Input => 3,
            Status::Image => 4,
            Status::RigFault => 5,
            Status::Memory => 6,
            Status::ReadFault => 7,
            Status::WriteFault => 8,
        }
    }
}
