//! Sense data as devices send them (SPC-4, 4.5): in fixed or descriptor format, of this command or an earlier one, cut off
//! behind the qualifier or longer than what is read.

ghost use Rattle.std.specs.Prelude.{◌≡◌, ◌+◌, ◌≤◌, IfErr, IfOk, drop, length, take};
ghost use Rattle.std.specs.Int.{from_be_bytes, w64};
ghost use Rattle.pi_blocks.specs.Seen.{Information, SaysDescribed, SaysFixed, Tells, TellsNone, end_of};

use sense_codes::{Sense, SenseFault};

/// What sense data tell.
#[derive(Clone, Copy, Debug)]
pub struct Seen {
    /// The sense key, the additional sense code with its qualifier, and the information where it is valid.
    pub sense: Sense,
    /// Whether it is of an earlier command (deferred error).
    pub is_deferred: bool,
}

/// Where the sense ends, by its additional length or by the bytes that there are.
fn end_of(bytes: &[u8]) -> usize
    requires { 8 ≤ length bytes.now }
    ensures end { result ≡ end_of bytes.now }
    ensures near { result ≤ 263 }
{
    bytes.len().min(8 + bytes[7] as usize)
}

/// The sense in fixed format.
fn of_fixed(bytes: &[u8]) -> Sense
    requires { 14 ≤ length bytes.now }
    ensures { SaysFixed bytes.now result }
{
    let info = u32::from_be_bytes([bytes[3], bytes[4], bytes[5], bytes[6]]);
    Sense {
        key: bytes[2] % 16,
        asc: bytes[12],
        ascq: bytes[13],
        info: if bytes[0] >= 128 {
            Some(u64::from(info))
        } else {
            None
        },
    }
}

/// The information in the descriptor at this place.
fn info_at(bytes: &[u8], at: usize) -> u64
    requires { at + 12 ≤ length bytes.now }
    ensures { result ≡ from_be_bytes w64 (take 8 (drop (at + 4) bytes.now)) }
{
    let Some(eight) = bytes[at + 4..].first_chunk::<8>() else {
        unreachable!()
    };
    u64::from_be_bytes(*eight)
}

/// The information of the first valid information descriptor.
fn information(bytes: &[u8]) -> Option<u64>
    requires { 8 ≤ length bytes.now }
    ensures { Information bytes.now result }
{
    let end = end_of(bytes);
    let mut at = 8;
    while at + 12 <= end {
        if bytes[at] == 0 && bytes[at + 1] == 10 && bytes[at + 2] >= 128 {
            return Some(info_at(bytes, at));
        }
        at += 2 + bytes[at + 1] as usize;
    }
    None
}

/// The sense in descriptor format.
fn of_described(bytes: &[u8]) -> Sense
    requires { 8 ≤ length bytes.now }
    ensures { SaysDescribed bytes.now result }
{
    Sense {
        key: bytes[1] % 16,
        asc: bytes[2],
        ascq: bytes[3],
        info: information(bytes),
    }
}

impl Seen {
    /// What these bytes tell. `Short` is answered where they are cut off before the qualifier, and `Form` where no sense
    /// has their response code.
    pub fn find(bytes: &[u8]) -> Result<Seen, SenseFault>
        ensures found { IfOk result (λ s. Tells bytes.now s.sense s.is_deferred) }
        ensures none { IfErr result (TellsNone bytes.now) }
    {
        let Some(first) = bytes.first() else {
            return Err(SenseFault::Short);
        };
        let code = first % 128;
        let is_fixed = code == 0x70 || code == 0x71;
        if !is_fixed && code != 0x72 && code != 0x73 {
            return Err(SenseFault::Form);
        }
        if bytes.len() < 8 || is_fixed && end_of(bytes) < 14 {
            return Err(SenseFault::Short);
        }
        let sense = if is_fixed {
            of_fixed(bytes)
        } else {
            of_described(bytes)
        };
        Ok(Seen {
            sense,
            is_deferred: code == 0x71 || code == 0x73,
        })
    }
}
