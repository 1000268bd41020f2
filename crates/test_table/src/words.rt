//! Words, numbers and bytes as rows write them.

use std::alloc::{AllocError, Global};

/// The first word of a text and the rest; all of it and nothing where it has no space.
pub fn cut(text: &str) -> (&str, &str) {
    text.split_once(' ').unwrap_or((text, ""))
}

/// A number in decimal digits, or the largest where the word is none.
pub fn number(word: &str) -> u64 {
    word.parse::<u64>().unwrap_or(u64::MAX)
}

/// The same of 32 bits.
pub fn small(word: &str) -> u32 {
    word.parse::<u32>().unwrap_or(u32::MAX)
}

pub(crate) fn decoded(alloc: Global, digits: &str) -> Vec<u8> {
    hex::decode(alloc, digits).unwrap_or(Vec::new(alloc))
}

/// Adds so many times the bytes of these digits.
fn add_times(
    alloc: Global,
    bytes: &mut Vec<u8>,
    times: &str,
    digits: &str,
) -> Result<(), AllocError> {
    let part = decoded(alloc, digits);
    for _ in 0..small(times).min(65_536) {
        bytes.extend_from_slice(&part)?;
    }
    Ok(())
}

/// Adds the formatted blocks of 512 bytes of these addresses, up to before the second.
fn add_formatted(bytes: &mut Vec<u8>, first: &str, end: &str) -> Result<(), AllocError> {
    for lba in small(first)..small(end).min(65_536) {
        bytes.extend_from_slice(&[0; 516])?;
        bytes.extend_from_slice(&lba.to_be_bytes())?;
    }
    Ok(())
}

/// The bytes of a text: pieces with + between them, each of them hexadecimal digits, N*DIGITS, which is N times these, or
/// A-B, which are the formatted blocks of the addresses from A on to before B.
pub fn bytes_of(alloc: Global, text: &str) -> Result<Vec<u8>, AllocError> {
    let mut bytes = Vec::new(alloc);
    for piece in text.split('+') {
        if let Some((times, digits)) = piece.split_once('*') {
            add_times(alloc, &mut bytes, times, digits)?;
        } else if let Some((first, end)) = piece.split_once('-') {
            add_formatted(&mut bytes, first, end)?;
        } else {
            bytes.extend_from_slice(&decoded(alloc, piece))?;
        }
    }
    Ok(bytes)
}

/// The bytes of a word of as many pairs of hexadecimal digits; none of another word.
pub fn array_of<const N: usize>(word: &str) -> Option<[u8; N]> {
    let mut bytes = [0u8; N];
    match hex::decode_to_slice(word, &mut bytes) {
        Ok(()) => Some(bytes),
        Err(_) => None,
    }
}

/// The tag of four hexadecimal digits; 0 of another word.
pub fn tag_of(word: &str) -> u16 {
    match array_of(word) {
        Some(bytes) => u16::from_be_bytes(bytes),
        None => 0,
    }
}

/// Bytes as hexadecimal digits.
pub fn hex_of(alloc: Global, bytes: &[u8]) -> Result<String, AllocError> {
    hex::encode(alloc, bytes)
}
