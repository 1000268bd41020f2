//! The images that calls are made over.

use std::alloc::{AllocError, Global};
use test_rig::{change, image_in};
use test_table::cut;

/// The images that rows go over: the first, and the second of a `diff`.
#[derive(Drop)]
pub(crate) struct Images {
    pub(crate) first: Vec<u8>,
    pub(crate) second: Vec<u8>,
}

/// The second image that a row's call is over, made of the table's.
fn second_in(alloc: Global, lines: &[String], table: &[u8]) -> Result<Vec<u8>, AllocError> {
    let mut image = Vec::from_slice(alloc, table)?;
    for line in lines {
        let (word, rest) = cut(line.as_str());
        if let Some(word) = word.strip_prefix("second-") {
            change(alloc, &mut image, word, rest)?;
        }
    }
    Ok(image)
}

/// The images that a row's call is over, made of the table's.
pub(crate) fn images_in(
    alloc: Global,
    lines: &[String],
    table: &Images,
) -> Result<Images, AllocError> {
    Ok(Images {
        first: image_in(alloc, lines, &table.first)?,
        second: second_in(alloc, lines, &table.second)?,
    })
}

/// The image that a row's call leaves in a store or in the rig: that of before, with the bytes that the lines with this
/// mark say in their places.
pub(crate) fn image_after(
    alloc: Global,
    lines: &[String],
    before: &[u8],
    mark: &str,
) -> Result<Vec<u8>, AllocError> {
    let mut image = Vec::from_slice(alloc, before)?;
    for line in lines {
        let (word, rest) = cut(line.as_str());
        if word == mark {
            change(alloc, &mut image, "put", rest)?;
        }
    }
    Ok(image)
}
