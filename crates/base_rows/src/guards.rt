//! Guards of bytes, whole and in parts.

use crate::names::none;
use pi_guard::{GuardKind, GuardRun, crc16, ip_sum};
use std::alloc::{AllocError, Global};
use test_table::{bytes_of, cut, hex_of, small};

/// The guard of the parts of these lengths, one after another.
fn in_parts(kind: GuardKind, lengths: &str, bytes: &[u8]) -> u16 {
    let mut run = GuardRun::new(kind);
    let mut rest = bytes;
    for length in lengths.split(',') {
        let (part, more) = rest.split_at((small(length) as usize).min(rest.len()));
        run.update(part);
        rest = more;
    }
    run.finish()
}

/// What comes of a call of three words: which guard, how it is made, and the bytes.
pub(crate) fn answer(alloc: Global, words: &str) -> Result<String, AllocError> {
    let (kind, rest) = cut(words);
    let (way, text) = cut(rest);
    let bytes = bytes_of(alloc, text)?;
    let guard = match (kind, way) {
        ("crc", "fast") => crc16(&bytes),
        ("crc", lengths) => in_parts(GuardKind::Crc, lengths, &bytes),
        ("ip", "fast") => ip_sum(&bytes),
        ("ip", lengths) => in_parts(GuardKind::Ip, lengths, &bytes),
        _ => return none(alloc),
    };
    hex_of(alloc, &guard.to_be_bytes())
}
