//! Blocks on their way through a target.

ghost use Rattle.std.specs.Prelude.{◌≡◌, ◌≤◌, true, length};
ghost use Rattle.rig_api.specs.Frames.{sent_size, stored_size};

use crate::faults::tamper_of;
use crate::names::{add, check_name, none, or_dash, out_of_range, tiny, type_of};
use fault_schedule::{Label, Tamper};
use pi_tuple::PiType;
use rig_api::Passage;
use std::alloc::{AllocError, Global};
use test_table::{bytes_of, cut, small};

/// Block 0 of op 7, at address 2^32 + 2, by three words: the unit's type, the protect field and the tag that is expected.
fn passage_of(kind: &str, protect: &str, rtag: &str) -> Passage
    ensures { result.size ≡ 512 }
{
    Passage {
        ty: type_of(kind),
        size: 512,
        protect: tiny(protect),
        lba: 0x1_0000_0002,
        rtag: small(rtag),
        app: 0x1234,
        mask: 0xFFFF,
        label: Some(Label { op: 7, k: 0 }),
    }
}

/// Whether these are as many bytes as a stored block has, and no fewer than one that is sent.
fn is_frame(block: &Passage, frame: &[u8]) -> bool
    requires { block.now.size ≡ 512 }
    ensures stored { result ≡ true → length frame.now ≡ stored_size block.now.ty block.now.size }
    ensures sent { result ≡ true → sent_size block.now.protect block.now.size ≤ length frame.now }
{
    match block.ty {
        PiType::Zero => block.protect == 0 && frame.len() == 512,
        PiType::One | PiType::Two | PiType::Three => frame.len() == 520,
    }
}

/// The bytes that are others than before, each with its place; - where there are none.
fn changes(alloc: Global, before: &[u8], after: &[u8]) -> Result<String, AllocError> {
    let mut text = String::new(alloc);
    for (i, (was, is)) in before.iter().zip(after).enumerate() {
        if was != is {
            add(&mut text, format!(in alloc; "{i}:{is}")?.as_str())?;
        }
    }
    or_dash(text)
}

/// What is found in a frame on its way, and which bytes are others behind it.
fn passed(
    alloc: Global,
    call: &str,
    block: &Passage,
    tamper: &Tamper,
    before: &[u8],
) -> Result<String, AllocError>
    requires { block.now.size ≡ 512 }
{
    let mut frame = Vec::from_slice(alloc, before)?;
    if !is_frame(block, &frame) {
        return out_of_range(alloc);
    }
    let found = match call {
        "finding" => block.finding(&frame),
        "out" => block.to_medium(tamper, &mut frame),
        "in" => block.from_medium(tamper, &mut frame),
        _ => return none(alloc),
    };
    let (name, changed) = (check_name(found), changes(alloc, before, &frame)?);
    format!(in alloc; "{name} {changed}")
}

pub(crate) fn answer(alloc: Global, schedule: &str, words: &str) -> Result<String, AllocError> {
    let (call, rest) = cut(words);
    let (kind, rest) = cut(rest);
    let (protect, rest) = cut(rest);
    let (rtag, frame) = cut(rest);
    let block = passage_of(kind, protect, rtag);
    let tamper = tamper_of(alloc, schedule)?;
    passed(alloc, call, &block, &tamper, &bytes_of(alloc, frame)?)
}
