//! The trace of a scrub.

use crate::sinks::{left, sink_of};
use dix_base::MemStore;
use image_commands::{format_image, scrub_image};
use image_rig::ImageRig;
use pi_tuple::PiType;
use report_text::print_trace;
use rig_api::{Rig, UnitSpec, is_layout};
use std::alloc::{AllocError, Global};
use test_table::{cut, small};

fn unit(ty: PiType, blocks: u64) -> UnitSpec {
    UnitSpec {
        ty,
        blocks,
        size: 512,
        first: 0,
    }
}

/// Formats an image of a device of type 1 with four blocks of 512 bytes and one of type 3 with two, and scrubs it.
fn scrub<R: Rig>(alloc: Global, rig: &mut R) {
    let units = [unit(PiType::One, 4), unit(PiType::Three, 2)];
    if is_layout(&units) {
        let _ = format_image(alloc, "a", &units, rig);
    }
    let mut found = Vec::new(alloc);
    let _ = scrub_image(alloc, "a", rig, &mut found);
}

/// A rig over the image, after that scrub.
fn scrubbed(alloc: Global) -> ImageRig<MemStore> {
    let mut rig = ImageRig::new(alloc, MemStore::new(Vec::new(alloc), Vec::new(alloc)));
    scrub(alloc, &mut rig);
    rig
}

/// What is left of the trace of a scrub from a record on in the sink of a row.
pub(crate) fn trace_row(alloc: Global, words: &str, whole: &[u8]) -> Result<String, AllocError> {
    let (from, rest) = cut(words);
    let from = small(from);
    let rig = scrubbed(alloc);
    if from > rig.records() {
        return String::from_str(alloc, "no record");
    }
    let (room, call) = cut(rest);
    let mut sink = sink_of(alloc, small(room), call)?;
    let written = print_trace(&mut sink, &rig, from);
    left(alloc, written, &sink, whole)
}
