//! Guards of bytes in parts, and such that go on.

use pi_blocks::{Part, Run, crc16v, ip_sumv};
use pi_guard::{crc16, crc16_after};
use std::alloc::{AllocError, Global};
use test_table::{Words, bytes_of, hex_of, small};

/// The bytes in parts of these lengths, with commas between, and one more of what is left.
pub(crate) fn parts_of<'a>(
    alloc: Global,
    lengths: &str,
    bytes: &'a [u8],
) -> Result<Vec<Part<'a>>, AllocError> {
    let mut parts = Vec::new(alloc);
    let mut rest = bytes;
    for length in lengths.split(',') {
        let (part, more) = rest.split_at((small(length) as usize).min(rest.len()));
        parts.push(Part { bytes: part })?;
        rest = more;
    }
    parts.push(Part { bytes: rest })?;
    Ok(parts)
}

/// The guard of this number of the parts, by a run that reads one after another.
fn run_over(guard: u32, parts: &[Part]) -> u16 {
    let mut run = Run::begin(guard);
    for part in parts {
        run.update(part.bytes);
    }
    run.finish()
}

/// The CRC of the parts, each part's by that of those before it.
fn goes_on(parts: &[Part]) -> u16 {
    let mut guard = crc16(&[]);
    for part in parts {
        guard = crc16_after(guard, part.bytes);
    }
    guard
}

/// What a call gives of the parts of these lengths.
pub(crate) fn summed(alloc: Global, call: &str, words: &mut Words) -> Result<String, AllocError> {
    let lengths = words.word();
    let bytes = bytes_of(alloc, words.rest())?;
    let parts = parts_of(alloc, lengths, &bytes)?;
    let guard = match call {
        "crc16v" => crc16v(&parts),
        "ip_sumv" => ip_sumv(&parts),
        "crc16_after" => goes_on(&parts),
        "run_crc" => run_over(0, &parts),
        _ => run_over(1, &parts),
    };
    hex_of(alloc, &guard.to_be_bytes())
}
