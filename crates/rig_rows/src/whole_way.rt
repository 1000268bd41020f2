//! The whole way of one block, out and in, slowly and in place: what host, adapter, target and owner do with it, one
//! after another.
//!
//! Each call works on a buffer that has room for the block's data and its tuple. The frame stands at its front, with
//! its tuple or without, as it travels there.

ghost use Rattle.std.specs.Prelude.{◌≡◌, ◌+◌, ◌<◌, ◌^◌, length, take};
ghost use Rattle.ref_remap.specs.Remapped.{remapped_bytes, remapped_tag};
ghost use Rattle.rig_api.specs.Frames.{stored_size};
ghost use Rattle.block_path.specs.Routes.{host_size, moved, passage, target};
ghost use Rattle.block_path.specs.WayIn.{delivered_of, mapped_back, owner_finds, way_in};
ghost use Rattle.block_path.specs.WayOut.{ended, mapped_out, stored_of, way_out};
ghost use Rattle.pi_tuple.specs.declared.TheConstants.{TUPLE};

use bio_core::Why;
use block_path::{Route, host_type, owner_says};
use fault_schedule::{Crossing, Tamper};
use integrity_payload::Owner;
use pi_tuple::{Check, PiType, has_ref_tag, ref_tag};
use rig_api::{Passage, stored_size};

/// The address that is so many blocks off.
fn moved(lba: u64, by: i64) -> u64
    requires { lba < 2 ^ 63 }
    ensures { result ≡ moved lba by }
{
    (i128::from(lba) + i128::from(by)).unsigned_abs() as u64
}

/// The four bytes of a reference tag: that of the one address becomes that of the other.
fn map_tag(tag: &mut [u8], ty: PiType, from: u64, to: u64)
    requires { length tag.old ≡ 4 }
    ensures { tag.new ≡ remapped_tag ty from to tag.old }
{
    let read = u32::from_be_bytes([tag[0], tag[1], tag[2], tag[3]]);
    if has_ref_tag(ty) && read == ref_tag(from) {
        tag.copy_from_slice(&ref_tag(to).to_be_bytes());
    }
}

/// The eight bytes of a tuple, of which the last four are its reference tag.
fn map_tuple(tuple: &mut [u8], ty: PiType, from: u64, to: u64)
    requires { length tuple.old ≡ TUPLE }
    ensures { tuple.new ≡ remapped_bytes ty from to tuple.old }
{
    map_tag(&mut tuple[4..], ty, from, to);
}

/// The block as the target knows it, whose address may be shifted.
fn passage(block: &Route, tamper: &Tamper) -> Passage
    requires { block.now.lba < 2 ^ 63 }
    ensures { result ≡ passage tamper.now block.now }
{
    let by = tamper.shift(Crossing::AdapterToTarget, block.label.op);
    Passage {
        ty: block.ty,
        size: block.size,
        protect: block.mode.field(block.ty),
        lba: moved(block.lba, by),
        rtag: ref_tag(block.lba),
        app: block.mode.app,
        mask: block.mode.mask,
        label: Some(block.label),
    }
}

fn map_out(block: &Route, frame: &mut [u8])
    requires { length frame.old ≡ block.now.size + TUPLE }
    ensures mapped { take (host_size block.now) frame.new ≡ mapped_out block.now (take (host_size block.now) frame.old) }
    ensures length { length frame.new ≡ length frame.old }
{
    if block.mode.dix {
        let size = block.size as usize;
        map_tuple(
            &mut frame[size..],
            host_type(block.ty),
            block.virt,
            block.lba,
        );
    }
}

fn map_back(block: &Route, frame: &mut [u8])
    requires { length frame.old ≡ block.now.size + TUPLE }
    ensures mapped { take (host_size block.now) frame.new ≡ mapped_back block.now (take (host_size block.now) frame.old) }
    ensures length { length frame.new ≡ length frame.old }
{
    if block.mode.dix {
        let size = block.size as usize;
        map_tuple(
            &mut frame[size..],
            host_type(block.ty),
            block.lba,
            block.virt,
        );
    }
}

fn owner_finds(block: &Route, frame: &[u8]) -> Option<Check>
    requires { length frame.now ≡ block.now.size + TUPLE }
    ensures { result ≡ owner_finds block.now (take (host_size block.now) frame.now) }
{
    if block.mode.dix {
        block.host_finding(block.virt, frame)
    } else {
        None
    }
}

/// The way out of a block that a target with these faults armed serves. In `frame`, which has eight bytes more than
/// the block has data, stands the block as it lies in the host's memory; afterwards there stands what is stored,
/// where the block is accepted.
pub(crate) fn way_out(block: &Route, tamper: &Tamper, frame: &mut [u8]) -> Option<Why>
    requires lba { block.now.lba < 2 ^ 63 }
    requires protect { 0 < block.now.mode.protect }
    requires frame { length frame.old ≡ block.now.size + TUPLE }
    ensures judged { ended result (take (stored_size block.now.ty block.now.size) frame.new)
        ≡ stored_of (way_out tamper.now (target tamper.now) block.now (take (host_size block.now) frame.old)) }
    ensures length { length frame.new ≡ length frame.old }
{
    map_out(block, frame);
    if let Some(check) = block.to_wire(tamper, frame) {
        return Some(Why::Adapter(check));
    }
    let stored = stored_size(block.ty, block.size);
    match passage(block, tamper).to_medium(tamper, &mut frame[..stored]) {
        Some(check) => Some(Why::Target(check)),
        None if tamper.fails(block.label) => Some(Why::Medium),
        None => None,
    }
}

/// The way in of a block from a target with these faults armed to the owner of its tuple. In `frame`, which has eight
/// bytes more than the block has data, stands the block as it is stored; afterwards there stands what the host gets,
/// where it is delivered.
pub(crate) fn way_in(block: &Route, tamper: &Tamper, owner: Owner, frame: &mut [u8]) -> Option<Why>
    requires lba { block.now.lba < 2 ^ 63 }
    requires protect { 0 < block.now.mode.protect }
    requires frame { length frame.old ≡ block.now.size + TUPLE }
    ensures judged { ended result (take (host_size block.now) frame.new)
        ≡ delivered_of (way_in tamper.now (target tamper.now) block.now owner (take (stored_size block.now.ty block.now.size) frame.old)) }
    ensures length { length frame.new ≡ length frame.old }
{
    if tamper.fails(block.label) {
        return Some(Why::Medium);
    }
    let stored = stored_size(block.ty, block.size);
    let finding = passage(block, tamper).from_medium(tamper, &mut frame[..stored]);
    if let Some(check) = finding {
        return Some(Why::Target(check));
    }
    if let Some(check) = block.from_wire(tamper, frame) {
        return Some(Why::Adapter(check));
    }
    map_back(block, frame);
    match owner_finds(block, frame) {
        Some(check) => Some(owner_says(owner, check)),
        None => None,
    }
}
