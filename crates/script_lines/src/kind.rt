//! What may be wrong with a line of a script.

ghost use Rattle.std.specs.Prelude.{◌≡◌};
ghost use Rattle.script_lines.specs.Kinds.{kind_name, kind_number, of_memory};

use std::alloc::AllocError;

/// What is wrong with a line of a script.
#[derive(Clone, Copy, Debug, PartialEq, Eq)]
pub enum ScriptKind {
    /// A byte that isn't from space to tilde.
    NotAscii,
    /// More than 4,096 bytes.
    LongLine,
    /// A word that isn't one of the language there.
    UnknownWord,
    /// A word that isn't a number of its form and range.
    BadNumber,
    /// The line ends too early.
    MissingWord,
    /// The line goes on.
    ExtraWord,
    /// A line that isn't allowed after the lines before it.
    OutOfPlace,
    /// More of something than a script may have.
    TooMany,
    /// Segments outside the pages, or of a wrong total.
    BadSegments,
    /// Two segments of the line share a byte.
    SegOverlap,
    /// A request of no block, of too many or outside the volume.
    BadRange,
    /// A fault that does nothing or acts nowhere.
    BadFault,
    /// Tuples in memory where the mode has none.
    NoIntegrity,
    /// The text doesn't begin with `dix 1` or `dix 2`.
    NoHeader,
    /// Want of memory. It is no fault of the script.
    Memory,
}

impl ScriptKind {
    /// The kind's number, 1 to 14; 255 for want of memory.
    pub fn number(self) -> u8
        ensures { result ≡ kind_number self }
    {
        match self {
            ScriptKind::NotAscii => 1,
            ScriptKind::LongLine => 2,
            ScriptKind::UnknownWord => 3,
            ScriptKind::BadNumber => 4,
            ScriptKind::MissingWord => 5,
            ScriptKind::ExtraWord => 6,
            ScriptKind::OutOfPlace => 7,
            ScriptKind::TooMany => 8,
            ScriptKind::BadSegments => 9,
            ScriptKind::SegOverlap => 10,
            ScriptKind::BadRange => 11,
            ScriptKind::BadFault => 12,
            ScriptKind::NoIntegrity => 13,
            ScriptKind::NoHeader => 14,
            ScriptKind::Memory => 255,
        }
    }

    /// The kind's name.
    pub fn name(self) -> &'static str
        ensures { result.now ≡ kind_name self }
    {
        match self {
            ScriptKind::NotAscii => "NotAscii",
            ScriptKind::LongLine => "LongLine",
            ScriptKind::UnknownWord => "UnknownWord",
            ScriptKind::BadNumber => "BadNumber",
            ScriptKind::MissingWord => "MissingWord",
            ScriptKind::ExtraWord => "ExtraWord",
            ScriptKind::OutOfPlace => "OutOfPlace",
            ScriptKind::TooMany => "TooMany",
            ScriptKind::BadSegments => "BadSegments",
            ScriptKind::SegOverlap => "SegOverlap",
            ScriptKind::BadRange => "BadRange",
            ScriptKind::BadFault => "BadFault",
            ScriptKind::NoIntegrity => "NoIntegrity",
            ScriptKind::NoHeader => "NoHeader",
            ScriptKind::Memory => "Memory",
        }
    }
}

impl From<AllocError> for ScriptKind {
    ghost from_gives = { λ _ kind. kind ≡ of_memory };

    fn from(_error: AllocError) -> ScriptKind {
        ScriptKind::Memory
    }
}
