//! Places in an image, and stretches of its blocks read and written.

use crate::units::part;
use dix_base::MemStore;
use image_blocks::{
    Image, PlaceFault, Stretch, block_bytes, open_image, part_of, read_blocks, whole_of,
    write_blocks,
};
use std::alloc::{AllocError, Global};
use test_table::{Words, hex_of};

/// A copy of the image in a store that fails at this call, or never where it is 0.
fn store_of(alloc: Global, image: &[u8], fail: u64) -> Result<MemStore, AllocError> {
    let fails = vec![in alloc; fail]?;
    Ok(MemStore::new(Vec::from_slice(alloc, image)?, fails))
}

/// The place of DEV, or of DEV FIRST COUNT.
fn judged(image: &Image, words: &str) -> Result<Stretch, PlaceFault> {
    let mut words = Words::of(words);
    let dev = words.small();
    if words.rest().is_empty() {
        return whole_of(image, dev);
    }
    let (first, count) = (words.number(), words.small());
    part_of(image, dev, first, count)
}

fn place_text(
    alloc: Global,
    place: Result<Stretch, PlaceFault>,
) -> Result<Option<String>, AllocError> {
    match place {
        Ok(Stretch { dev, first, count }) => Ok(Some(format!(in alloc; "{dev} {first} {count}")?)),
        Err(fault) => Ok(Some(String::from_str(alloc, fault.name())?)),
    }
}

/// How a call ended, and some of these bytes.
fn bytes_text(
    alloc: Global,
    is_done: bool,
    bytes: &[u8],
    at: u64,
    len: u64,
) -> Result<Option<String>, AllocError> {
    let Some(bytes) = part(bytes, at, len) else {
        return Ok(None);
    };
    let ended = if is_done { "ok" } else { "failed" };
    let bytes = hex_of(alloc, bytes)?;
    Ok(Some(format!(in alloc; "{ended} {bytes}")?))
}

fn place(alloc: Global, image: &[u8], words: &str) -> Result<Option<String>, AllocError> {
    let mut store = store_of(alloc, image, 0)?;
    match open_image(alloc, &mut store, "unit.img") {
        Ok(image) => place_text(alloc, judged(&image, words)),
        Err(_) => Ok(None),
    }
}

/// What is read of a stretch: DEV FIRST COUNT, the call that fails, and which of the bytes are told.
fn reads(alloc: Global, image: &[u8], words: &str) -> Result<Option<String>, AllocError> {
    let mut words = Words::of(words);
    let (dev, first, count) = (words.small(), words.number(), words.small());
    let mut store = store_of(alloc, image, words.number())?;
    let Ok(image) = open_image(alloc, &mut store, "unit.img") else {
        return Ok(None);
    };
    let Ok(place) = part_of(&image, dev, first, count) else {
        return Ok(None);
    };
    let len = place.count as usize * block_bytes(&image, place.dev);
    let mut bytes = vec![in alloc; 0u8; len]?;
    let is_done = read_blocks(&mut store, &image, place, &mut bytes).is_ok();
    bytes_text(alloc, is_done, &bytes, words.number(), words.number())
}

/// What a stretch leaves that is written: DEV FIRST COUNT, the byte of which its blocks are made, the call that
/// fails, and which bytes of the store are told.
fn writes(alloc: Global, image: &[u8], words: &str) -> Result<Option<String>, AllocError> {
    let mut words = Words::of(words);
    let (dev, first, count) = (words.small(), words.number(), words.small());
    let byte = (words.small() % 256) as u8;
    let mut store = store_of(alloc, image, words.number())?;
    let Ok(image) = open_image(alloc, &mut store, "unit.img") else {
        return Ok(None);
    };
    let Ok(place) = part_of(&image, dev, first, count) else {
        return Ok(None);
    };
    let len = place.count as usize * block_bytes(&image, place.dev);
    let bytes = vec![in alloc; byte; len]?;
    let is_done = write_blocks(&mut store, &image, place, &bytes).is_ok();
    bytes_text(
        alloc,
        is_done,
        store.bytes(),
        words.number(),
        words.number(),
    )
}

/// What a call to blocks of an image comes to.
pub(crate) fn answer(
    alloc: Global,
    image: &[u8],
    word: &str,
    rest: &str,
) -> Result<Option<String>, AllocError> {
    match word {
        "place" => place(alloc, image, rest),
        "reads" => reads(alloc, image, rest),
        _ => writes(alloc, image, rest),
    }
}
