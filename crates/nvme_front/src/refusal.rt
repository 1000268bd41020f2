//! Which commands are refused before anything is sent, and how.

ghost use Rattle.std.specs.Prelude.{◌≡◌, ◌≤◌, ◌+◌, ◌^◌, length};
ghost use Rattle.nvme_front.specs.Refusals.{binds, by_type, device_at, has_namespace, refusal, refusal_at, takes};

use crate::{Completion, NvmCommand};
use pi_tuple::{PiType, ref_tag};
use volume_table::DeviceInfo;

/// The most blocks of a command.
const MOST_BLOCKS: u32 = 1024;

const INVALID_OPCODE: Completion = Completion { sct: 0, sc: 0x01 };

const INVALID_FIELD: Completion = Completion { sct: 0, sc: 0x02 };

const INVALID_NAMESPACE: Completion = Completion { sct: 0, sc: 0x0B };

const OUT_OF_RANGE: Completion = Completion { sct: 0, sc: 0x80 };

const INVALID_PROTECTION: Completion = Completion { sct: 1, sc: 0x81 };

/// Whether these PRCHK bits are taken on a unit of this type.
fn takes(ty: PiType, prchk: u8) -> bool
    ensures { result ≡ takes ty prchk }
{
    match ty {
        PiType::Zero => true,
        PiType::One => prchk == 0 || prchk == 4 || prchk == 5,
        PiType::Two => prchk == 0 || prchk == 4 || prchk == 5 || prchk == 7,
        PiType::Three => prchk == 0 || prchk == 4,
    }
}

/// Whether the command tells tags by which its blocks are checked or made: those of a unit of type
/// 1 are the blocks' own.
fn binds(command: &NvmCommand) -> bool
    ensures { result ≡ binds command.now }
{
    command.prchk == 5 || command.is_write() && command.pract
}

/// The refusals that a unit's type gives.
fn by_type(ty: PiType, command: &NvmCommand) -> Option<Completion>
    ensures { result ≡ by_type ty command.now }
{
    if ty == PiType::Three && command.prchk % 2 == 1 {
        return Some(INVALID_PROTECTION);
    }
    if !takes(ty, command.prchk) {
        return Some(INVALID_FIELD);
    }
    if ty == PiType::One && binds(command) && command.rtag != ref_tag(command.first) {
        return Some(INVALID_PROTECTION);
    }
    if command.first > 0xFFFF_FFFF_FFFF_FFFF - command.count as u64 {
        return Some(OUT_OF_RANGE);
    }
    None
}

/// The first refusal of a command to these devices, or `None` where it is to be sent.
pub(crate) fn refusal(devices: &[DeviceInfo], command: &NvmCommand) -> Option<Completion>
    requires { length devices.now ≤ 8 }
    ensures { result ≡ refusal devices.now command.now }
{
    if command.opcode != 1 && command.opcode != 2 {
        return Some(INVALID_OPCODE);
    }
    if command.reserved {
        return Some(INVALID_FIELD);
    }
    if command.nsid < 1 || command.nsid as usize > devices.len() {
        return Some(INVALID_NAMESPACE);
    }
    if command.count > MOST_BLOCKS {
        return Some(INVALID_FIELD);
    }
    by_type(devices[command.nsid as usize - 1].ty, command)
}
