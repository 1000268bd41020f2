//! Command descriptor blocks.

ghost use Rattle.std.specs.Prelude.{◌≡◌, drop, take, Ok, Err};
ghost use Rattle.cdb_codec.specs.Decoded.{decoded};
ghost use Rattle.cdb_codec.specs.declared.command.CdbFault.{CdbFault as AnyFault};
ghost use Rattle.pi_blocks.specs.Commands.{Reads, cleared, encoded};
ghost use Rattle.pi_blocks.specs.declared.commands.CdbFields.{CdbFields as AnyFields};
ghost use Rattle.dixpi.specs.Faults.{status_of};

use crate::status::{OK, status_of_fault};
use pi_blocks::CdbFields;

/// Writes a command (SBC-3, 5.11 to 5.35) to the front of `out`, in 10, 16 or 32 bytes, and their number to `len`.
/// Answers `OK`, `BAD_OPCODE`, or `BAD_FIELD` where a field doesn't fit its form.
#[unsafe(no_mangle)]
pub extern "C" fn dixpi_cdb_encode(cdb: &CdbFields, out: &mut [u8; 32], len: &mut u32) -> u32
    ensures written { result ≡ 0 → (encoded cdb.now ≡ Ok (take len.new out.new))
        × (drop len.new out.new ≡ drop len.new out.old) }
    ensures refused { ¬ (result ≡ 0) → (e : AnyFault) × (result ≡ status_of e) × (encoded cdb.now ≡ Err e) }
    ensures stays { ¬ (result ≡ 0) → (out.new ≡ out.old) × (len.new ≡ len.old) }
{
    match cdb.encode(out) {
        Ok(count) => {
            *len = count as u32;
            OK
        }
        Err(fault) => status_of_fault(fault),
    }
}

/// Reads a command. Answers `OK`, or as the codec does of the bytes without flags, group number and control byte:
/// `BAD_OPCODE`, `BAD_LENGTH`, or `BAD_FIELD` for a field that isn't served and for a bit outside the fields.
#[unsafe(no_mangle)]
pub extern "C" fn dixpi_cdb_decode(bytes: &[u8], cdb: &mut CdbFields) -> u32
    ensures read { result ≡ 0 → Reads cdb.new bytes.now }
    ensures only { (f : AnyFields) → Reads f bytes.now → (result ≡ 0) × (cdb.new ≡ f) }
    ensures refused { ¬ (result ≡ 0)
        → (e : AnyFault) × (result ≡ status_of e) × (decoded (cleared bytes.now) ≡ Err e) }
    ensures stays { ¬ (result ≡ 0) → cdb.new ≡ cdb.old }
{
    match CdbFields::decode(bytes) {
        Ok(fields) => {
            *cdb = fields;
            OK
        }
        Err(fault) => status_of_fault(fault),
    }
}
