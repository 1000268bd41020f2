//! Commands as initiators send them.

ghost use Rattle.std.specs.Prelude.{◌≡◌, drop, take};
ghost use Rattle.cdb_codec.specs.declared.command.CdbFault.{CdbFault as AnyFault};
ghost use Rattle.device_commands.specs.Forms.{Refused, Says, Written};
ghost use Rattle.device_commands.specs.Lengths.{asked, len_of};
ghost use Rattle.device_commands.specs.Ops.{fault_of};
ghost use Rattle.device_commands.specs.declared.command.DeviceCommand.{DeviceCommand as AnyCommand};
ghost use Rattle.dixpi.specs.Faults.{status_of};

use crate::status::{OK, status_of_fault};
use device_commands::{DeviceCommand, cdb_len, checks_asked};

/// How many bytes the command has that these bytes begin with, by its operation code (SPC-4, 4.2.5.1), whether or not it
/// is served; 0 where they don't tell it.
#[unsafe(no_mangle)]
pub extern "C" fn dixpi_cdb_len(bytes: &[u8]) -> u32
    ensures { result ≡ len_of bytes.now }
{
    cdb_len(bytes)
}

/// Writes a command to the front of `out`, in 10, 12, 16 or 32 bytes, and their number to `len`. Answers `OK`,
/// `BAD_OPCODE`, or `BAD_FIELD` where the form can't carry a number.
#[unsafe(no_mangle)]
pub extern "C" fn dixpi_command_encode(
    command: &DeviceCommand,
    out: &mut [u8; 32],
    len: &mut u32,
) -> u32
    ensures written { result ≡ 0 → Written command.now (take len.new out.new)
        × (drop len.new out.new ≡ drop len.new out.old) }
    ensures refused { ¬ (result ≡ 0) → (e : AnyFault) × (result ≡ status_of e) × Refused command.now e }
    ensures stays { ¬ (result ≡ 0) → (out.new ≡ out.old) × (len.new ≡ len.old) }
{
    match command.encode(out) {
        Ok(count) => {
            *len = count as u32;
            OK
        }
        Err(fault) => status_of_fault(fault),
    }
}

/// Reads the command that these bytes begin with, whatever stands behind it. Answers `OK`, `BAD_OPCODE`, `BAD_LENGTH`
/// where it asks for more bytes, or `BAD_FIELD` for a reserved value and for a bit outside the fields.
#[unsafe(no_mangle)]
pub extern "C" fn dixpi_command_decode(bytes: &[u8], command: &mut DeviceCommand) -> u32
    ensures read { result ≡ 0 → Says command.new bytes.now }
    ensures only { (c : AnyCommand) → Says c bytes.now → (result ≡ 0) × (command.new ≡ c) }
    ensures refused { ¬ (result ≡ 0) → result ≡ status_of (fault_of bytes.now) }
    ensures stays { ¬ (result ≡ 0) → command.new ≡ command.old }
{
    match DeviceCommand::decode(bytes) {
        Ok(said) => {
            *command = said;
            OK
        }
        Err(fault) => status_of_fault(fault),
    }
}

/// The checks that a protect field asks of the protection information that travels with its command, as flags of
/// `Want::checks`: what a target hands to `dixpi_verify`. 0, which no check takes, where the value is reserved.
#[unsafe(no_mangle)]
pub extern "C" fn dixpi_protect_checks(protect: u32) -> u32
    ensures { result ≡ asked protect }
{
    checks_asked(protect)
}
