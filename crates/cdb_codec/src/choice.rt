//! Which command asks for a range of blocks.

ghost use Rattle.std.specs.Prelude.{◌≡◌, ◌+◌, ◌<◌, ◌≤◌, ◌^◌, true};
ghost use Rattle.cdb_codec.specs.Rule.{chosen, is_two, fits_10, tagged};
ghost use Rattle.cdb_codec.specs.Forms.{Fits, is_protect};

use crate::{Cdb, Rw};
use pi_tuple::PiType;

/// Which way the blocks go.
#[derive(Clone, Copy, Debug, PartialEq, Eq)]
pub enum Dir2 {
    /// From the unit: READ.
    In,
    /// To the unit: WRITE.
    Out,
}

fn is_in_reach(lba: u64, n: u32) -> bool
    requires some { 1 ≤ n }
    requires end { lba + n < 2 ^ 64 }
    ensures { result ≡ fits_10 lba n }
{
    lba + u64::from(n) - 1 <= 0xFFFF_FFFF && n <= 0xFFFF
}

fn with_tags(lba: u64, n: u32, protect: u8, app: u16, mask: u16) -> Rw
    ensures { result ≡ tagged lba n protect app mask }
{
    let asks_app = protect == 1;
    Rw {
        protect,
        lba,
        n,
        rtag: (lba % 0x1_0000_0000) as u32,
        app: if asks_app { app } else { 0 },
        mask: if asks_app { mask } else { 0 },
    }
}

/// The command for `n` blocks from `lba` on at a unit of type `ty` with this protect field.
///
/// It is the form of 32 bytes for type 2 with a protect field that isn't 0, since type 2 takes the
/// others without protection alone (SBC-3, 4.22.2.4). Its expected reference tag is the low 32
/// bits of `lba`; the expected application tag and its mask are `app` and `mask` where the protect
/// field is 1, else 0. In all else it is the form of 10 bytes, where the address of the last block
/// fits 32 bits and `n` fits 16, and otherwise the form of 16 bytes.
///
/// `n` is at least 1, and `lba + n` fits 64 bits.
pub fn choose(ty: PiType, dir: Dir2, lba: u64, n: u32, protect: u8, app: u16, mask: u16) -> Cdb
    requires some { 1 ≤ n }
    requires end { lba + n < 2 ^ 64 }
    ensures value { result ≡ chosen ty dir lba n protect app mask }
    ensures fits { is_protect protect ≡ true → Fits result }
{
    if ty == PiType::Two && protect != 0 {
        let c = with_tags(lba, n, protect, app, mask);
        return match dir {
            Dir2::In => Cdb::Read32(c),
            Dir2::Out => Cdb::Write32(c),
        };
    }
    let c = Rw {
        protect,
        lba,
        n,
        rtag: 0,
        app: 0,
        mask: 0,
    };
    match (is_in_reach(lba, n), dir) {
        (true, Dir2::In) => Cdb::Read10(c),
        (true, Dir2::Out) => Cdb::Write10(c),
        (false, Dir2::In) => Cdb::Read16(c),
        (false, Dir2::Out) => Cdb::Write16(c),
    }
}
