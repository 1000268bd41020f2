//! The bytes of a command.

ghost use Rattle.std.specs.Prelude.{◌≡◌};
ghost use Rattle.cdb_codec.specs.Forms.{Fits, FitsTen, FitsSixteen, FitsThirtyTwo, capacity, form, sixteen, ten, thirty_two};

use crate::{Cdb, Rw};
use arrayvec::ArrayVec;

fn in_ten(op: u8, c: &Rw) -> ArrayVec<u8, 32>
    requires { FitsTen c.now }
    ensures { result.items ≡ ten op c.now }
{
    let mut out = ArrayVec::new();
    out.try_extend_from_slice(&[op, c.protect << 5]).unwrap();
    out.try_extend_from_slice(&(c.lba as u32).to_be_bytes())
        .unwrap();
    out.try_extend_from_slice(&[0]).unwrap();
    out.try_extend_from_slice(&(c.n as u16).to_be_bytes())
        .unwrap();
    out.try_extend_from_slice(&[0]).unwrap();
    out
}

fn in_sixteen(op: u8, c: &Rw) -> ArrayVec<u8, 32>
    requires { FitsSixteen c.now }
    ensures { result.items ≡ sixteen op c.now }
{
    let mut out = ArrayVec::new();
    out.try_extend_from_slice(&[op, c.protect << 5]).unwrap();
    out.try_extend_from_slice(&c.lba.to_be_bytes()).unwrap();
    out.try_extend_from_slice(&c.n.to_be_bytes()).unwrap();
    out.try_extend_from_slice(&[0, 0]).unwrap();
    out
}

fn in_thirty_two(action: u8, c: &Rw) -> ArrayVec<u8, 32>
    requires { FitsThirtyTwo c.now }
    ensures { result.items ≡ thirty_two action c.now }
{
    let mut out = ArrayVec::new();
    out.try_extend_from_slice(&[0x7F, 0, 0, 0, 0, 0, 0, 0x18, 0, action])
        .unwrap();
    out.try_extend_from_slice(&[c.protect << 5, 0]).unwrap();
    out.try_extend_from_slice(&c.lba.to_be_bytes()).unwrap();
    out.try_extend_from_slice(&c.rtag.to_be_bytes()).unwrap();
    out.try_extend_from_slice(&c.app.to_be_bytes()).unwrap();
    out.try_extend_from_slice(&c.mask.to_be_bytes()).unwrap();
    out.try_extend_from_slice(&c.n.to_be_bytes()).unwrap();
    out
}

fn in_capacity(alloc_len: u32) -> ArrayVec<u8, 32>
    ensures { result.items ≡ capacity alloc_len }
{
    let mut out = ArrayVec::new();
    out.try_extend_from_slice(&[0x9E, 0x10, 0, 0, 0, 0, 0, 0, 0, 0])
        .unwrap();
    out.try_extend_from_slice(&alloc_len.to_be_bytes()).unwrap();
    out.try_extend_from_slice(&[0, 0]).unwrap();
    out
}

impl Cdb {
    /// The command descriptor block of the command: its fields in their bytes, the most
    /// significant byte first, and 0 in every bit outside them.
    ///
    /// The protect field is 0, 1, 3 or 4, and the other fields fit those of the form: 32 bits for
    /// the LBA and 16 for the length in the form of 10 bytes, and tags only in that of 32.
    pub fn encode(&self) -> ArrayVec<u8, 32>
        requires { Fits self.now }
        ensures { result.items ≡ form self.now }
    {
        match self {
            Cdb::Read10(c) => in_ten(0x28, c),
            Cdb::Write10(c) => in_ten(0x2A, c),
            Cdb::Verify10(c) => in_ten(0x2F, c),
            Cdb::Read16(c) => in_sixteen(0x88, c),
            Cdb::Write16(c) => in_sixteen(0x8A, c),
            Cdb::Verify16(c) => in_sixteen(0x8F, c),
            Cdb::Read32(c) => in_thirty_two(0x09, c),
            Cdb::Write32(c) => in_thirty_two(0x0B, c),
            Cdb::ReadCapacity16 { alloc_len } => in_capacity(*alloc_len),
        }
    }
}
