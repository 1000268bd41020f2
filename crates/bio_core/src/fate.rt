//! What becomes of a block.

use pi_tuple::Check;

/// Why a block failed.
#[derive(Clone, Copy, Debug, PartialEq, Eq)]
pub enum Why {
    /// The adapter's check found it, or a sense of key 5h with ASC 10h says so.
    Adapter(Check),
    /// The target's check found it: a sense of key Bh with ASC 10h.
    Target(Check),
    /// The block layer, which owns the tuples, found it in what was read.
    Block(Check),
    /// The application, which owns the tuples, found it in what was read.
    App(Check),
    /// The medium failed: a sense of key 3h with 11h/00h or 0Ch/00h.
    Medium,
    /// The target refused the command with any other sense.
    Refused { key: u8, asc: u8, ascq: u8 },
    /// The target did not come to the block and gave no sense.
    Short,
}

/// What became of a block of a command.
#[derive(Clone, Copy, Debug, PartialEq, Eq)]
pub enum Fate {
    /// It was carried and is good.
    Good,
    /// It failed.
    Bad(Why),
    /// It was not carried; it may be sent again.
    Untouched,
}
