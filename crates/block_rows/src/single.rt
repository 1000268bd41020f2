//! One tuple by itself.

use crate::words::{found_text, short, want_of};
use pi_blocks::{TupleFields, check};
use std::alloc::{AllocError, Global};
use test_table::{Words, bytes_of, hex_of};

/// The eight bytes of a word; zeros where it has fewer.
fn eight_of(alloc: Global, word: &str) -> Result<[u8; 8], AllocError> {
    let bytes = bytes_of(alloc, word)?;
    Ok(bytes.first_chunk::<8>().copied().unwrap_or([0; 8]))
}

/// What a check of a tuple answers, by the type, what is wanted, the number of the block, the guard and the bytes.
pub(crate) fn checked(alloc: Global, words: &mut Words) -> Result<String, AllocError> {
    let pi_type = words.small();
    let want = want_of(words);
    let i = words.number();
    let guard = short(words.word());
    let eight = eight_of(alloc, words.rest())?;
    found_text(alloc, check(pi_type, &eight, guard, &want, i))
}

/// The fields of a tuple and its bytes again.
pub(crate) fn read(alloc: Global, word: &str) -> Result<String, AllocError> {
    let fields = TupleFields::from_bytes(&eight_of(alloc, word)?);
    let TupleFields { guard, app, rtag } = fields;
    let bytes = hex_of(alloc, &fields.to_bytes())?;
    format!(in alloc; "{guard} {app} {rtag} {bytes}")
}
