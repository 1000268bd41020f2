//! The command that looks at stored blocks.

ghost use Rattle.std.specs.Prelude.{◌≡◌, ◌+◌, ◌<◌, ◌≤◌, ◌^◌};
ghost use Rattle.cdb_codec.specs.Forms.{Fits};
ghost use Rattle.pi_scrub.specs.Looks.{protect_for, verify_of};

use cdb_codec::{Cdb, Rw};
use pi_tuple::PiType;

/// VRPROTECT 001b for types 1 and 3, whose forms of 10 and 16 bytes check tuples, and 000b for a
/// type without tuples and for type 2, whose tuples these forms check by the guard alone.
fn protect_for(ty: PiType) -> u8
    ensures { result ≡ protect_for ty }
{
    match ty {
        PiType::Zero => 0,
        PiType::One => 1,
        PiType::Two => 0,
        PiType::Three => 1,
    }
}

/// VERIFY of the n blocks from this address on: in 10 bytes where the last address fits 32 bits,
/// else in 16 (SBC-3, 5.22 and 5.24).
pub(crate) fn verify_of(ty: PiType, lba: u64, n: u32) -> Cdb
    requires some { 1 ≤ n }
    requires most { n ≤ 1024 }
    requires end { lba + n < 2 ^ 64 }
    ensures value { result ≡ verify_of ty lba n }
    ensures fits { Fits result }
{
    let c = Rw {
        protect: protect_for(ty),
        lba,
        n,
        rtag: 0,
        app: 0,
        mask: 0,
    };
    if lba + n as u64 <= 0x1_0000_0000 {
        Cdb::Verify10(c)
    } else {
        Cdb::Verify16(c)
    }
}
