//! Data copied to blocks and out of them, and blocks over parts.

use crate::guards::parts_of;
use crate::words::{found_text, short, want_of, written_text};
use pi_blocks::{
    Layout, PartMut, generate_spread, insert, remap_spread, strip, strip_all, verify_spread,
};
use std::alloc::{AllocError, Global};
use test_table::{Words, bytes_of, hex_of};

/// The blocks with data and tuples, by the application tag, the first reference tag, the lengths of the data's parts, the
/// data and the blocks as they were.
pub(crate) fn inserted(
    alloc: Global,
    layout: &Layout,
    words: &mut Words,
) -> Result<String, AllocError> {
    let app = short(words.word());
    let first_ref = words.small();
    let lengths = words.word();
    let data = bytes_of(alloc, words.word())?;
    let mut blocks = bytes_of(alloc, words.rest())?;
    let parts = parts_of(alloc, lengths, &data)?;
    let answer = insert(&parts, &mut blocks, layout, app, first_ref);
    written_text(alloc, answer, &blocks)
}

/// What a check answers and what it leaves of data, by what is wanted, the data as they were and the blocks.
pub(crate) fn stripped(
    alloc: Global,
    layout: &Layout,
    words: &mut Words,
) -> Result<String, AllocError> {
    let want = want_of(words);
    let mut data = bytes_of(alloc, words.word())?;
    let blocks = bytes_of(alloc, words.rest())?;
    let told = found_text(alloc, strip(&blocks, &mut data, layout, &want))?;
    let left = hex_of(alloc, &data)?;
    format!(in alloc; "{told}, {left}")
}

/// The same of all blocks, with the bitmap, by what is wanted, data and bitmap as they were, and the blocks.
pub(crate) fn all_stripped(
    alloc: Global,
    layout: &Layout,
    words: &mut Words,
) -> Result<String, AllocError> {
    let want = want_of(words);
    let mut data = bytes_of(alloc, words.word())?;
    let mut bad = bytes_of(alloc, words.word())?;
    let blocks = bytes_of(alloc, words.rest())?;
    let answer = strip_all(&blocks, &mut data, &mut bad, layout, &want);
    let told = found_text(alloc, answer)?;
    let left = hex_of(alloc, &data)?;
    let marks = hex_of(alloc, &bad)?;
    format!(in alloc; "{told}, {left}, {marks}")
}

/// What a check of blocks over parts answers, by what is wanted, the block to start from, the parts' lengths and the bytes.
pub(crate) fn verified(
    alloc: Global,
    layout: &Layout,
    words: &mut Words,
) -> Result<String, AllocError> {
    let want = want_of(words);
    let start = words.number();
    let lengths = words.word();
    let blocks = bytes_of(alloc, words.rest())?;
    let parts = parts_of(alloc, lengths, &blocks)?;
    found_text(alloc, verify_spread(&parts, layout, &want, start))
}

/// The bytes in three parts, of these lengths and of what is left.
fn three_of(
    alloc: Global,
    bytes: &mut [u8],
    first: usize,
    second: usize,
) -> Result<Vec<PartMut<'_>>, AllocError> {
    let mut parts = Vec::new(alloc);
    let first = first.min(bytes.len());
    let (one, rest) = bytes.split_at_mut(first);
    let second = second.min(rest.len());
    let (two, three) = rest.split_at_mut(second);
    parts.push(PartMut { bytes: one })?;
    parts.push(PartMut { bytes: two })?;
    parts.push(PartMut { bytes: three })?;
    Ok(parts)
}

/// The bytes of blocks over three parts with their tuples made, by the application tag, the first reference tag, the lengths
/// of two parts and the bytes.
pub(crate) fn spread_generated(
    alloc: Global,
    layout: &Layout,
    words: &mut Words,
) -> Result<String, AllocError> {
    let app = short(words.word());
    let first_ref = words.small();
    let (first, second) = (words.small() as usize, words.small() as usize);
    let mut blocks = bytes_of(alloc, words.rest())?;
    let mut parts = three_of(alloc, &mut blocks, first, second)?;
    let answer = generate_spread(&mut parts, layout, app, first_ref);
    drop(parts);
    written_text(alloc, answer, &blocks)
}

/// The bytes of blocks over three parts with their reference tags mapped, by the two first tags, the lengths of two parts
/// and the bytes.
pub(crate) fn spread_remapped(
    alloc: Global,
    layout: &Layout,
    words: &mut Words,
) -> Result<String, AllocError> {
    let from = words.small();
    let to = words.small();
    let (first, second) = (words.small() as usize, words.small() as usize);
    let mut blocks = bytes_of(alloc, words.rest())?;
    let mut parts = three_of(alloc, &mut blocks, first, second)?;
    let answer = remap_spread(&mut parts, layout, from, to);
    drop(parts);
    written_text(alloc, answer, &blocks)
}
