//! The SCSI command that stands for an NVM command.

ghost use Rattle.std.specs.Prelude.{◌≡◌, ◌≤◌, ◌<◌, ◌+◌, ◌^◌};
ghost use Rattle.cdb_codec.specs.Forms.{Fits};
ghost use Rattle.nvme_front.specs.Translation.{protect_for, scsi_command, tagged, way};

use crate::NvmCommand;
use cdb_codec::{Cdb, Dir2, Rw, choose};
use pi_tuple::PiType;

/// The protect field: on a unit with tuples 011b where PRCHK asks for nothing, 100b where it asks for
/// the guard alone, and else 001b.
fn protect_for(ty: PiType, prchk: u8) -> u8
    ensures { result ≡ protect_for ty prchk }
{
    if ty == PiType::Zero {
        return 0;
    }
    match prchk {
        0 => 3,
        4 => 4,
        _ => 1,
    }
}

fn way(command: &NvmCommand) -> Dir2
    ensures { result ≡ way command.now }
{
    if command.is_write() {
        Dir2::Out
    } else {
        Dir2::In
    }
}

/// The fields of the form of 32 bytes, with the command's initial reference tag, and with its
/// application tag and mask where PRCHK asks for all three checks.
fn tagged(command: &NvmCommand) -> Rw
    ensures { result ≡ tagged command.now }
{
    let asks_app = command.prchk == 7;
    Rw {
        protect: protect_for(PiType::Two, command.prchk),
        lba: command.first,
        n: command.count,
        rtag: command.rtag,
        app: if asks_app { command.app } else { 0 },
        mask: if asks_app { command.mask } else { 0 },
    }
}

/// The SCSI command for a unit of this type: on type 2 the form of 32 bytes, else the form of 10 or
/// 16 bytes that `choose` gives.
pub(crate) fn scsi_command(ty: PiType, command: &NvmCommand) -> Cdb
    requires some { 1 ≤ command.now.count }
    requires end { command.now.first + command.now.count < 2 ^ 64 }
    ensures value { result ≡ scsi_command ty command.now }
    ensures fits { Fits result }
{
    if ty == PiType::Two {
        return match way(command) {
            Dir2::In => Cdb::Read32(tagged(command)),
            Dir2::Out => Cdb::Write32(tagged(command)),
        };
    }
    let protect = protect_for(ty, command.prchk);
    choose(
        ty,
        way(command),
        command.first,
        command.count,
        protect,
        0,
        0,
    )
}
