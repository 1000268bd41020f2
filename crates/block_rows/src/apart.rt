//! Data and metadata in buffers of their own, the data in parts.

use crate::guards::parts_of;
use crate::words::{found_text, short, want_of, written_text};
use pi_blocks::{Layout, dix_generate, dix_verify};
use std::alloc::{AllocError, Global};
use test_table::{Words, bytes_of};

/// What a check answers, by what is wanted, the block to start from, the lengths of the data's parts, the data and the metadata.
pub(crate) fn verified(
    alloc: Global,
    layout: &Layout,
    words: &mut Words,
) -> Result<String, AllocError> {
    let want = want_of(words);
    let start = words.number();
    let lengths = words.word();
    let data = bytes_of(alloc, words.word())?;
    let meta = bytes_of(alloc, words.rest())?;
    let parts = parts_of(alloc, lengths, &data)?;
    found_text(alloc, dix_verify(&parts, &meta, layout, &want, start))
}

/// The metadata with its tuples made, by the application tag, the first reference tag, the lengths of the data's parts,
/// the data and the metadata.
pub(crate) fn generated(
    alloc: Global,
    layout: &Layout,
    words: &mut Words,
) -> Result<String, AllocError> {
    let app = short(words.word());
    let first_ref = words.small();
    let lengths = words.word();
    let data = bytes_of(alloc, words.word())?;
    let mut meta = bytes_of(alloc, words.rest())?;
    let parts = parts_of(alloc, lengths, &data)?;
    let answer = dix_generate(&parts, &mut meta, layout, app, first_ref);
    written_text(alloc, answer, &meta)
}
