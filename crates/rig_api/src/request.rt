//! What a command asks of a unit.

ghost use Rattle.std.specs.Prelude.{◌≡◌};
ghost use Rattle.rig_api.specs.Requests.{is_foreign, request_of};

use cdb_codec::{Cdb, Rw};
use pi_tuple::PiType;

/// What a command asks for, in whichever form it came.
#[derive(Clone, Copy, Debug, PartialEq, Eq)]
pub enum Request {
    /// Blocks from the unit: READ(10), READ(16), READ(32).
    Read(Rw),
    /// Blocks to the unit: WRITE(10), WRITE(16), WRITE(32).
    Write(Rw),
    /// Blocks to be checked where they are stored: VERIFY(10), VERIFY(16).
    Verify(Rw),
    /// The unit's size and protection: READ CAPACITY(16), with its allocation length.
    ReadCapacity(u32),
}

/// What a command asks for.
pub fn request_of(cdb: Cdb) -> Request
    ensures { result ≡ request_of cdb }
{
    match cdb {
        Cdb::Read10(c) => Request::Read(c),
        Cdb::Read16(c) => Request::Read(c),
        Cdb::Read32(c) => Request::Read(c),
        Cdb::Write10(c) => Request::Write(c),
        Cdb::Write16(c) => Request::Write(c),
        Cdb::Write32(c) => Request::Write(c),
        Cdb::Verify10(c) => Request::Verify(c),
        Cdb::Verify16(c) => Request::Verify(c),
        Cdb::ReadCapacity16 { alloc_len } => Request::ReadCapacity(alloc_len),
    }
}

/// Whether a command has no place on a unit of this type. The form of 32 bytes is served by type
/// 2 alone, and every command to type 2 that asks for tuples has it.
pub fn is_foreign(ty: PiType, cdb: Cdb) -> bool
    ensures { result ≡ is_foreign ty cdb }
{
    let is_two = ty == PiType::Two;
    match cdb {
        Cdb::Read32(_) => !is_two,
        Cdb::Write32(_) => !is_two,
        Cdb::ReadCapacity16 { .. } => false,
        Cdb::Read10(c) => is_two && c.protect != 0,
        Cdb::Read16(c) => is_two && c.protect != 0,
        Cdb::Write10(c) => is_two && c.protect != 0,
        Cdb::Write16(c) => is_two && c.protect != 0,
        Cdb::Verify10(c) => is_two && c.protect != 0,
        Cdb::Verify16(c) => is_two && c.protect != 0,
    }
}
