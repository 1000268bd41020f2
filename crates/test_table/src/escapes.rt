//! Texts as rows write them, with bytes that a line can't have.

use crate::words::{decoded, small};
use std::alloc::{AllocError, Global};

/// The part of a text that stands several times.
#[derive(Clone, Copy)]
struct Part {
    start: usize,
    times: u32,
}

/// Adds the byte of two digits and what stands behind them.
fn add_byte(alloc: Global, bytes: &mut Vec<u8>, rest: &str) -> Result<(), AllocError> {
    let (digits, rest) = rest.split_at_checked(2).unwrap_or((rest, ""));
    bytes.extend_from_slice(&decoded(alloc, digits))?;
    bytes.extend_from_slice(rest.as_bytes())
}

/// Adds the part again as often as it is missing.
fn repeat(alloc: Global, bytes: &mut Vec<u8>, part: Part) -> Result<(), AllocError> {
    let once = Vec::from_slice(alloc, bytes.get(part.start..).unwrap_or(&[]))?;
    for _ in 1..part.times {
        bytes.extend_from_slice(&once)?;
    }
    Ok(())
}

/// Adds what stands between two backslashes. Answers the part that it began, or that was begun before.
fn add(alloc: Global, bytes: &mut Vec<u8>, part: Part, piece: &str) -> Result<Part, AllocError> {
    if let Some(rest) = piece.strip_prefix('x') {
        add_byte(alloc, bytes, rest)?;
    } else if let Some(rest) = piece.strip_prefix('n') {
        bytes.push(b'\n')?;
        bytes.extend_from_slice(rest.as_bytes())?;
    } else if let Some(rest) = piece.strip_prefix('(') {
        let (times, rest) = rest.split_once(':').unwrap_or((rest, ""));
        let start = bytes.len();
        bytes.extend_from_slice(rest.as_bytes())?;
        return Ok(Part {
            start,
            times: small(times),
        });
    } else if let Some(rest) = piece.strip_prefix(')') {
        repeat(alloc, bytes, part)?;
        bytes.extend_from_slice(rest.as_bytes())?;
    } else {
        let rest = piece.strip_prefix('-').unwrap_or(piece);
        bytes.extend_from_slice(rest.as_bytes())?;
    }
    Ok(part)
}

/// The bytes of a text: \n is a newline, \xHH a byte, \- nothing, and \(N:T\) is N times T.
pub fn text_of(alloc: Global, text: &str) -> Result<Vec<u8>, AllocError> {
    let mut bytes = Vec::new(alloc);
    let mut part = Part { start: 0, times: 1 };
    let (plain, escaped) = text.split_once('\\').unwrap_or((text, "-"));
    bytes.extend_from_slice(plain.as_bytes())?;
    for piece in escaped.split('\\') {
        part = add(alloc, &mut bytes, part, piece)?;
    }
    Ok(bytes)
}
