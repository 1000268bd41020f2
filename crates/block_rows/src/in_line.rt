//! Blocks that lie one after another.

use crate::words::{found_text, short, want_of, written_text};
use pi_blocks::{Layout, generate, remap, verify};
use std::alloc::{AllocError, Global};
use test_table::{Words, bytes_of};

/// What a check of blocks answers, by what is wanted, the block to start from and the bytes.
pub(crate) fn verified(
    alloc: Global,
    layout: &Layout,
    words: &mut Words,
) -> Result<String, AllocError> {
    let want = want_of(words);
    let start = words.number();
    let blocks = bytes_of(alloc, words.rest())?;
    found_text(alloc, verify(&blocks, layout, &want, start))
}

/// The bytes of blocks with their tuples made, by the application tag, the first reference tag and the bytes.
pub(crate) fn generated(
    alloc: Global,
    layout: &Layout,
    words: &mut Words,
) -> Result<String, AllocError> {
    let app = short(words.word());
    let first_ref = words.small();
    let mut blocks = bytes_of(alloc, words.rest())?;
    let answer = generate(&mut blocks, layout, app, first_ref);
    written_text(alloc, answer, &blocks)
}

/// The bytes of blocks with their reference tags mapped, by the two first tags and the bytes.
pub(crate) fn remapped(
    alloc: Global,
    layout: &Layout,
    words: &mut Words,
) -> Result<String, AllocError> {
    let from = words.small();
    let to = words.small();
    let mut blocks = bytes_of(alloc, words.rest())?;
    let answer = remap(&mut blocks, layout, from, to);
    written_text(alloc, answer, &blocks)
}
