//! Images in memory: freshly formatted, and changed as the lines of a row say.

use call_verdict::unit_of;
use dix_base::MemStore;
use image_rig::ImageRig;
use rig_api::{Rig, UnitSpec, is_layout};
use std::alloc::{AllocError, Global};
use test_table::{bytes_of, cut, number};

/// Whether a rig has formatted these units.
fn format<R: Rig>(alloc: Global, rig: &mut R, units: &[UnitSpec]) -> bool {
    is_layout(units) && rig.format(alloc, "a", units).is_ok()
}

/// The bytes of a freshly formatted image of these units; none where there can be no such image.
///
/// # Errors
///
/// Want of memory alone.
pub fn formatted(alloc: Global, units: &[UnitSpec]) -> Result<Vec<u8>, AllocError> {
    let mut rig = ImageRig::new(alloc, MemStore::new(Vec::new(alloc), Vec::new(alloc)));
    if !format(alloc, &mut rig, units) {
        return Ok(Vec::new(alloc));
    }
    Vec::from_slice(alloc, rig.store().bytes())
}

/// The bytes of the freshly formatted image of the units that these words name; none where an image can't have them.
///
/// # Errors
///
/// Want of memory alone.
pub fn image_of_words(alloc: Global, words: &str) -> Result<Vec<u8>, AllocError> {
    let mut units = Vec::new(alloc);
    for word in words.split(' ') {
        if let Some(unit) = unit_of(word.as_bytes()) {
            units.push(unit)?;
        }
    }
    formatted(alloc, &units)
}

/// Puts bytes in place of those from a place on, as far as there are such.
fn put(image: &mut [u8], at: usize, new: &[u8]) {
    for (to, from) in image.iter_mut().skip(at).zip(new) {
        *to = *from;
    }
}

/// Changes the image as a line says: `put` has bytes from a place on, `cut` how many bytes are left, `more` bytes
/// behind all others.
///
/// # Errors
///
/// Want of memory alone.
pub fn change(
    alloc: Global,
    image: &mut Vec<u8>,
    word: &str,
    rest: &str,
) -> Result<(), AllocError> {
    if word == "put" {
        let (at, digits) = cut(rest);
        put(image, number(at) as usize, &bytes_of(alloc, digits)?);
    } else if word == "cut" {
        image.truncate(number(rest) as usize);
    } else if word == "more" {
        image.extend_from_slice(&bytes_of(alloc, rest)?)?;
    }
    Ok(())
}

/// The image that lines make of another one.
///
/// # Errors
///
/// Want of memory alone.
pub fn image_in(alloc: Global, lines: &[String], before: &[u8]) -> Result<Vec<u8>, AllocError> {
    let mut image = Vec::from_slice(alloc, before)?;
    for line in lines {
        let (word, rest) = cut(line.as_str());
        change(alloc, &mut image, word, rest)?;
    }
    Ok(image)
}
