//! What a status says.

ghost use Rattle.std.specs.Prelude.{◌≡◌};
ghost use Rattle.dixpi.specs.Faults.{Told, none_status, status_of};

use cdb_codec::CdbFault;
use pi_blocks::{Found, Refusal, Unchecked};

/// Done; of a check, no block differs.
pub const OK: u32 = 0;

/// A block differs.
pub const DIFFERS: u32 = 1;

/// The layout is none.
pub const BAD_LAYOUT: u32 = 2;

/// The bytes are no whole blocks, or data and metadata are of other counts.
pub const BAD_LENGTH: u32 = 3;

/// The operation code is none that is served.
pub const BAD_OPCODE: u32 = 4;

/// A field has a value that isn't served, or doesn't fit its form; of a check, its flags name none.
pub const BAD_FIELD: u32 = 5;

/// The status of blocks that are none.
pub(crate) fn status_of_none(why: Refusal) -> u32
    ensures { result ≡ none_status why }
{
    match why {
        Refusal::BadLayout => BAD_LAYOUT,
        Refusal::BadLength => BAD_LENGTH,
    }
}

/// The status of bytes or numbers that are no command.
pub(crate) fn status_of_fault(fault: CdbFault) -> u32
    ensures { result ≡ status_of fault }
{
    match fault {
        CdbFault::Opcode => BAD_OPCODE,
        CdbFault::Field => BAD_FIELD,
        CdbFault::Length => BAD_LENGTH,
    }
}

/// The status of a check that was made, or of why it wasn't. What was found is left in `found`.
pub(crate) fn told(answer: Result<Option<Found>, Unchecked>, found: &mut Found) -> u32
    ensures { Told answer result found.old found.new }
{
    match answer {
        Ok(None) => OK,
        Ok(Some(first)) => {
            *found = first;
            DIFFERS
        }
        Err(Unchecked::Blocks(why)) => status_of_none(why),
        Err(Unchecked::Flags) => BAD_FIELD,
    }
}

/// The version of the library: 0.3.0, a byte for each number.
#[unsafe(no_mangle)]
pub extern "C" fn dixpi_version() -> u32
    ensures { result ≡ 768 }
{
    0x0003_00
}
