//! What a device tells of itself.

use crate::images::rig_over;
use crate::units::{sense_of, type_word};
use dix_base::MemStore;
use image_rig::ImageRig;
use rig_api::{Outcome, Rig};
use rig_discovery::discover;
use std::alloc::{AllocError, Global};
use test_rig::{Answer, ScriptedRig};
use test_table::{Words, bytes_of};
use volume_table::DeviceInfo;

/// The answer of two words: the bytes, and the sense or `-`.
fn answer_of(alloc: Global, words: &str) -> Result<Answer, AllocError> {
    let mut words = Words::of(words);
    let bytes = bytes_of(alloc, words.word())?;
    Ok(Answer {
        outcome: Outcome {
            done: 0,
            sense: sense_of(words.word()),
        },
        bytes,
    })
}

/// The first device of a rig, or none where an answer is at fault.
fn first_device<R: Rig>(alloc: Global, rig: &mut R) -> Result<Option<DeviceInfo>, AllocError> {
    let count = rig.devices();
    if count > 8 {
        return Ok(None);
    }
    rig.reserve(alloc, count, 0)?;
    match discover(rig) {
        Ok(found) => Ok(found.first().copied()),
        Err(_) => Ok(None),
    }
}

fn device_text(alloc: Global, device: DeviceInfo) -> Result<String, AllocError> {
    let DeviceInfo {
        ty,
        blocks,
        size,
        first,
    } = device;
    let ty = type_word(ty);
    format!(in alloc; "{ty} {blocks} {size} {first}")
}

/// What a device tells, or that its answer is at fault.
fn found_text(alloc: Global, found: Option<DeviceInfo>) -> Result<String, AllocError> {
    match found {
        Some(device) => device_text(alloc, device),
        None => String::from_str(alloc, "fault"),
    }
}

/// A rig over this image whose device answers so; none where the image can't be opened.
fn answering(
    alloc: Global,
    image: &[u8],
    words: &str,
) -> Result<Option<ScriptedRig<ImageRig<MemStore>>>, AllocError> {
    let mut inner = rig_over(alloc, Vec::from_slice(alloc, image)?, 0)?;
    if inner.open(alloc, "unit.img").is_err() {
        return Ok(None);
    }
    let answers = Vec::from_array(alloc, [answer_of(alloc, words)?])?;
    Ok(Some(ScriptedRig::new(alloc, inner, answers)))
}

/// What is found where the device of this image answers so to READ CAPACITY(16).
pub(crate) fn answer(
    alloc: Global,
    image: &[u8],
    words: &str,
) -> Result<Option<String>, AllocError> {
    let Some(mut rig) = answering(alloc, image, words)? else {
        return Ok(None);
    };
    let found = first_device(alloc, &mut rig)?;
    Ok(Some(found_text(alloc, found)?))
}
