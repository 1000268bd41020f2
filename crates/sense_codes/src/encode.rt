//! The bytes of sense data.

ghost use Rattle.std.specs.Prelude.{◌≡◌, ◌<◌};
ghost use Rattle.sense_codes.specs.Written.{descriptor, fixed, written};

use crate::Sense;
use arrayvec::ArrayVec;

fn in_fixed(response: u8, info: u32, s: &Sense) -> ArrayVec<u8, 20>
    ensures { result.items ≡ fixed response info s.now }
{
    let mut out = ArrayVec::new();
    out.try_extend_from_slice(&[response, 0, s.key]).unwrap();
    out.try_extend_from_slice(&info.to_be_bytes()).unwrap();
    out.try_extend_from_slice(&[0x0A, 0, 0, 0, 0, s.asc, s.ascq, 0, 0, 0, 0])
        .unwrap();
    out
}

fn in_descriptor(info: u64, s: &Sense) -> ArrayVec<u8, 20>
    ensures { result.items ≡ descriptor info s.now }
{
    let mut out = ArrayVec::new();
    out.try_extend_from_slice(&[0x72, s.key, s.asc, s.ascq, 0, 0, 0, 0x0C])
        .unwrap();
    out.try_extend_from_slice(&[0, 0x0A, 0x80, 0]).unwrap();
    out.try_extend_from_slice(&info.to_be_bytes()).unwrap();
    out
}

impl Sense {
    /// The bytes of the sense data, whose key is below 16: fixed format, with VALID exactly where
    /// there is an information, and descriptor format where the information doesn't fit 32 bits.
    pub fn encode(&self) -> ArrayVec<u8, 20>
        requires { self.now.key < 16 }
        ensures { result.items ≡ written self.now }
    {
        match self.info {
            None => in_fixed(0x70, 0, self),
            Some(info) if info <= 0xFFFF_FFFF => in_fixed(0xF0, info as u32, self),
            Some(info) => in_descriptor(info, self),
        }
    }
}
