//! Blocks as a row writes them.

use std::alloc::{AllocError, Global};
use test_table::{array_of, small};

/// The data of block `p`: byte `j` is (7 j + p (j / 5) + p) mod 251.
fn data(alloc: Global, p: u32, size: u32) -> Result<Vec<u8>, AllocError> {
    let mut bytes = Vec::new(alloc);
    for j in 0..size {
        let byte = j
            .wrapping_mul(7)
            .wrapping_add((j / 5).wrapping_mul(p))
            .wrapping_add(p)
            % 251;
        bytes.push(byte as u8)?;
    }
    Ok(bytes)
}

/// The first byte has another bit.
fn alter(bytes: &mut Vec<u8>) {
    if let Some(byte) = bytes.get_mut(0) {
        *byte ^= 1;
    }
}

/// The frame of a word `P:TUPLE`, or `P` without a tuple: the data of block P, from 10 on of block P - 10 with its first
/// byte altered, and the tuple's bytes.
pub(crate) fn frame_of(alloc: Global, word: &str, size: u32) -> Result<Vec<u8>, AllocError> {
    let (block, tuple) = word.split_once(':').unwrap_or((word, ""));
    let p = small(block);
    let mut frame = data(alloc, p % 10, size)?;
    if p >= 10 {
        alter(&mut frame);
    }
    if let Some(bytes) = array_of::<8>(tuple) {
        frame.extend_from_slice(bytes.as_slice())?;
    }
    Ok(frame)
}

/// The frames of these words, one after another; `-` is none.
pub(crate) fn frames_of(alloc: Global, words: &str, size: u32) -> Result<Vec<u8>, AllocError> {
    let mut frames = Vec::new(alloc);
    for word in words.split(' ') {
        if word != "-" {
            frames.extend_from_slice(&frame_of(alloc, word, size)?)?;
        }
    }
    Ok(frames)
}
