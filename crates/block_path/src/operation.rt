//! What the adapter does with tuples.

ghost use Rattle.std.specs.Prelude.{◌≡◌};
ghost use Rattle.block_path.specs.Operations.{operation};

use bio_core::Dir;

/// What an adapter does with the tuples of a command, by whether they travel between host and adapter and between
/// adapter and target (Data Integrity Extensions).
#[derive(Clone, Copy, Debug, PartialEq, Eq)]
pub enum Operation {
    /// There are no tuples.
    Normal,
    /// Of a write: the target gets tuples that the adapter made.
    WriteInsert,
    /// Of a read: the target's tuples are checked and dropped.
    ReadStrip,
    /// Of a write: the host's tuples are checked and dropped.
    WriteStrip,
    /// Of a read: the host gets tuples that the adapter made.
    ReadInsert,
    /// Of a write: the host's tuples are checked and sent, with the CRC as their guard.
    WritePass,
    /// Of a read: the target's tuples are checked and handed on, with the guard of the host's kind.
    ReadPass,
}

/// The operation, by whether tuples travel between host and adapter (`dix`) and between adapter and target (`dif`),
/// and by the direction of the data.
pub fn operation_for(dix: bool, dif: bool, dir: Dir) -> Operation
    ensures { result ≡ operation dix dif dir }
{
    match (dix, dif, dir) {
        (false, false, _) => Operation::Normal,
        (false, true, Dir::Write) => Operation::WriteInsert,
        (false, true, Dir::Read) => Operation::ReadStrip,
        (true, false, Dir::Write) => Operation::WriteStrip,
        (true, false, Dir::Read) => Operation::ReadInsert,
        (true, true, Dir::Write) => Operation::WritePass,
        (true, true, Dir::Read) => Operation::ReadPass,
    }
}
