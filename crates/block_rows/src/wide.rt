//! Guards of 32 and 64 bits, and blocks with NVMe's information that carries them.

use crate::words::short;
use std::alloc::{AllocError, Global};
use test_table::{Words, bytes_of, hex_of};
use wide_blocks::{
    NvmeFound, NvmeLayout, NvmeRefusal, NvmeTags, NvmeWant, generate_wide, remap_wide, verify_wide,
};
use wide_guard::{crc32c, crc32c_after, crc64, crc64_after};

/// CRC-32C of the bytes, cut behind so many: the second part's by that of the first.
pub(crate) fn sum_of_32(alloc: Global, words: &mut Words) -> Result<String, AllocError> {
    let cut = words.small() as usize;
    let bytes = bytes_of(alloc, words.rest())?;
    let (front, behind) = bytes.split_at(cut.min(bytes.len()));
    hex_of(alloc, &crc32c_after(crc32c(front), behind).to_be_bytes())
}

/// The same of 64 bits.
pub(crate) fn sum_of_64(alloc: Global, words: &mut Words) -> Result<String, AllocError> {
    let cut = words.small() as usize;
    let bytes = bytes_of(alloc, words.rest())?;
    let (front, behind) = bytes.split_at(cut.min(bytes.len()));
    hex_of(alloc, &crc64_after(crc64(front), behind).to_be_bytes())
}

fn layout_of(words: &mut Words) -> NvmeLayout {
    NvmeLayout {
        data_size: words.small(),
        meta_size: words.small(),
        at_end: words.small(),
        guard: words.small(),
        pi_type: words.small(),
        storage: words.small(),
    }
}

fn refusal(alloc: Global, why: NvmeRefusal) -> Result<String, AllocError> {
    String::from_str(
        alloc,
        match why {
            NvmeRefusal::Layout => "bad layout",
            NvmeRefusal::Length => "bad length",
            NvmeRefusal::Field => "bad field",
        },
    )
}

fn written(
    alloc: Global,
    answer: Result<(), NvmeRefusal>,
    bytes: &[u8],
) -> Result<String, AllocError> {
    match answer {
        Ok(()) => hex_of(alloc, bytes),
        Err(why) => refusal(alloc, why),
    }
}

/// What a check answers, by the layout, what is wanted, the block to start from and the bytes.
pub(crate) fn verified(alloc: Global, words: &mut Words) -> Result<String, AllocError> {
    let layout = layout_of(words);
    let want = NvmeWant {
        first_ref: words.number(),
        storage: words.number(),
        storage_mask: words.number(),
        app: short(words.word()),
        mask: short(words.word()),
        checks: words.small(),
    };
    let start = words.number();
    let blocks = bytes_of(alloc, words.rest())?;
    match verify_wide(&blocks, &layout, &want, start) {
        Ok(None) => String::from_str(alloc, "none"),
        Ok(Some(found)) => {
            let NvmeFound {
                block,
                expected,
                actual,
                check,
            } = found;
            format!(in alloc; "{block} {check} {expected} {actual}")
        }
        Err(why) => refusal(alloc, why),
    }
}

/// The bytes of blocks with their information made, by the layout, the tags and the bytes.
pub(crate) fn generated(alloc: Global, words: &mut Words) -> Result<String, AllocError> {
    let layout = layout_of(words);
    let tags = NvmeTags {
        first_ref: words.number(),
        storage: words.number(),
        app: short(words.word()),
    };
    let mut blocks = bytes_of(alloc, words.rest())?;
    let answer = generate_wide(&mut blocks, &layout, &tags);
    written(alloc, answer, &blocks)
}

/// The bytes of blocks with their reference tags mapped, by the layout, the two first tags and the bytes.
pub(crate) fn remapped(alloc: Global, words: &mut Words) -> Result<String, AllocError> {
    let layout = layout_of(words);
    let from = words.number();
    let to = words.number();
    let mut blocks = bytes_of(alloc, words.rest())?;
    let answer = remap_wide(&mut blocks, &layout, from, to);
    written(alloc, answer, &blocks)
}
