//! The frames of a command, between the host's buffers of data and of metadata and the wire.

ghost use Rattle.std.specs.Prelude.{◌≡◌, ◌+◌, ◌*◌, ◌<◌, ◌≤◌, ◌++◌, ◌^◌, true, false, length, take, drop};
ghost use Rattle.pi_tuple.specs.Finds.{is_zero};
ghost use Rattle.rig_api.specs.Frames.{stored_size};
ghost use Rattle.nvme_front.specs.Buffers.{body_after, frames_out, made_tag, meta_after, parts, room_for, sent_by, tuple_for};
ghost use Rattle.nvme_front.specs.Commands.{is_write};
ghost use Rattle.nvme_front.specs.Refusals.{has_meta, meta_len};
ghost use Rattle.pi_tuple.specs.declared.TheConstants.{LARGEST_BLOCK};

use crate::{Completion, NvmCommand};
use pi_guard::crc16;
use pi_tuple::{PiType, TUPLE, has_ref_tag, make};
use rig_api::stored_size;

/// Puts these bytes behind those in front of this place, and answers where they end.
fn put(into: &mut [u8], at: usize, piece: &[u8]) -> usize
    requires { at + length piece.now ≤ length into.old }
    ensures front { take result into.new ≡ take at into.old ++ piece.now }
    ensures end { result ≡ at + length piece.now }
    ensures long { length into.new ≡ length into.old }
{
    let end = at + piece.len();
    into[at..end].copy_from_slice(piece);
    end
}

/// The first bytes and those behind them; all, where there are no more.
pub(crate) fn cut(all: &[u8], count: usize) -> (&[u8], &[u8])
    ensures front { result.0.now ≡ take count all.now }
    ensures back { result.1.now ≡ drop count all.now }
{
    all.split_at(count.min(all.len()))
}

/// The reference tag that PRACT has made for block `k`: the initial tag and, but for type 3, one
/// more for each block before it.
fn made_tag(ty: PiType, rtag: u32, k: u32) -> u32
    ensures { result ≡ made_tag ty rtag k }
{
    if has_ref_tag(ty) {
        rtag.wrapping_add(k)
    } else {
        rtag
    }
}

/// The tuple that goes out with block `k`: the one that PRACT has made, or the given one.
fn tuple_for(ty: PiType, command: &NvmCommand, k: u32, block: &[u8], given: &[u8]) -> [u8; TUPLE]
    requires { command.now.pract ≡ false → length given.now ≡ TUPLE }
    ensures { result ≡ tuple_for ty command.now k block.now given.now }
{
    if command.pract {
        return make(crc16(block), command.app, made_tag(ty, command.rtag, k)).to_bytes();
    }
    let mut tuple = [0u8; TUPLE];
    tuple.copy_from_slice(given);
    tuple
}

/// Whether metadata moves between host and front.
pub(crate) fn has_meta(ty: PiType, command: &NvmCommand) -> bool
    ensures { result ≡ has_meta ty command.now }
{
    ty != PiType::Zero && !command.pract
}

/// The bytes that a command has sent by its unit: the frames of a read.
pub(crate) fn room_for(ty: PiType, command: &NvmCommand, size: usize) -> usize
    requires few { command.now.count ≤ 1024 }
    requires size { size ≤ LARGEST_BLOCK }
    ensures value { result ≡ room_for ty command.now size }
    ensures bound { result ≤ 4202496 }
    ensures none { is_write command.now ≡ true → result ≡ 0 }
{
    if command.is_write() {
        0
    } else {
        command.count as usize * stored_size(ty, size as u32)
    }
}

/// Puts the frames of a write to a unit with tuples into the front of the buffer: each block's data,
/// then its tuple.
pub(crate) fn put_frames(
    ty: PiType,
    command: &NvmCommand,
    size: usize,
    body: &[u8],
    meta: &[u8],
    frames: &mut [u8],
)
    requires few { command.now.count ≤ 1024 }
    requires size { size ≤ LARGEST_BLOCK }
    requires body { length body.now ≡ command.now.count * size }
    requires meta { command.now.pract ≡ false → length meta.now ≡ command.now.count * TUPLE }
    requires room { command.now.count * (size + TUPLE) ≤ length frames.old }
    ensures frames { take (command.now.count * (size + TUPLE)) frames.new ≡ frames_out ty command.now size 0 command.now.count body.now meta.now }
    ensures long { length frames.new ≡ length frames.old }
{
    let mut data = body;
    let mut tuples = meta;
    let mut at = 0usize;
    for k in 0..command.count {
        let (block, more) = cut(data, size);
        let (given, others) = cut(tuples, TUPLE);
        at = put(frames, at, block);
        at = put(frames, at, &tuple_for(ty, command, k, block, given));
        data = more;
        tuples = others;
    }
}

/// Takes of each frame of so many bytes the part from a place on, one after another.
pub(crate) fn take_parts(
    width: usize,
    from: usize,
    len: usize,
    count: u32,
    frames: &[u8],
    into: &mut [u8],
)
    requires inside { from + len ≤ width }
    requires frames { length frames.now ≡ count * width }
    requires into { length into.old ≡ count * len }
    ensures { into.new ≡ parts width from len count frames.now }
{
    let mut rest = frames;
    let mut at = 0usize;
    for _ in 0..count {
        let (frame, more) = cut(rest, width);
        let (_, behind) = cut(frame, from);
        let (part, _) = cut(behind, len);
        at = put(into, at, part);
        rest = more;
    }
}

/// Puts what goes out with a command into the front of the buffer, and answers how many bytes it is.
pub(crate) fn put_out(
    ty: PiType,
    command: &NvmCommand,
    size: usize,
    body: &[u8],
    meta: &[u8],
    frames: &mut [u8],
) -> usize
    requires few { command.now.count ≤ 1024 }
    requires size { size ≤ LARGEST_BLOCK }
    requires body { length body.now ≡ command.now.count * size }
    requires meta { has_meta ty command.now ≡ true → length meta.now ≡ command.now.count * TUPLE }
    requires room { 4202496 ≤ length frames.old }
    ensures sent { take result frames.new ≡ sent_by ty command.now size body.now meta.now }
    ensures bound { result ≤ 4202496 }
    ensures end { is_write command.now ≡ true → result ≡ command.now.count * stored_size ty size }
    ensures none { is_write command.now ≡ false → result ≡ 0 }
    ensures long { length frames.new ≡ length frames.old }
{
    if !command.is_write() {
        return 0;
    }
    if ty == PiType::Zero {
        return put(frames, 0, body);
    }
    put_frames(ty, command, size, body, meta, frames);
    command.count as usize * (size + TUPLE)
}

/// Brings what came with a command to the host: a read that succeeded fills the buffers with its data
/// and its tuples, one that failed with zeros, and a write leaves them.
pub(crate) fn deliver(
    ty: PiType,
    command: &NvmCommand,
    size: usize,
    done: Completion,
    came: &[u8],
    body: &mut [u8],
    meta: &mut [u8],
)
    requires size { size ≤ LARGEST_BLOCK }
    requires came { length came.now ≡ room_for ty command.now size }
    requires body { length body.old ≡ command.now.count * size }
    requires meta { length meta.old ≡ meta_len ty command.now }
    ensures body { body.new ≡ body_after ty command.now size done came.now body.old }
    ensures meta { meta.new ≡ meta_after ty command.now size done came.now meta.old }
{
    if command.is_write() {
        return;
    }
    if !done.is_success() {
        body.fill(0);
        meta.fill(0);
        return;
    }
    let width = stored_size(ty, size as u32);
    take_parts(width, 0, size, command.count, came, body);
    if has_meta(ty, command) {
        take_parts(width, size, TUPLE, command.count, came, meta);
    }
}
