//! Blocks to a dump.

ghost use Rattle.std.specs.Prelude.{◌≡◌, ◌*◌, ◌≤◌, length, Err};
ghost use Rattle.report_text.specs.Writing.{Wrote};
ghost use Rattle.rig_api.specs.Frames.{frames_of, stored_size};
ghost use Rattle.rig_api.specs.Headers.{image_size};
ghost use Rattle.image_rig.specs.LayoutPlaces.{block_len};
ghost use Rattle.image_blocks.specs.Images.{units_open};
ghost use Rattle.image_blocks.specs.Places.{IsStretch};
ghost use Rattle.dix_base.specs.Stores.{WasRead};
ghost use Rattle.image_text.specs.Dumps.{dump_of, piece_of};
ghost use Rattle.image_text.specs.Ends.{DumpEnds};
ghost use Rattle.rig_api.specs.declared.TheConstants.{MOST_FRAME};

use crate::layout::{Layout, stored_len};
use dix_base::{Failed, Sink, Store};
use image_blocks::{
    Image, Stretch, WalkFault, behind_of, block_bytes, blocks_in, front_of, read_blocks,
};
use report_text::write_all;
use rig_api::UnitSpec;

/// The piece of a stored block.
fn piece_of(layout: Layout, unit: UnitSpec, block: &[u8]) -> &[u8]
    requires { length block.now ≡ stored_size unit.ty unit.size }
    ensures { result.now ≡ piece_of layout unit.size block.now }
{
    let (data, tuple) = block.split_at(unit.size as usize);
    match layout {
        Layout::Interleaved => block,
        Layout::Plain => data,
        Layout::Tuples => tuple,
    }
}

/// Writes the pieces of so many stored blocks, one by one.
fn write_pieces<O: Sink>(
    out: &mut O,
    layout: Layout,
    unit: UnitSpec,
    count: u32,
    frames: &[u8],
) -> Result<(), Failed>
    requires { length frames.now ≡ count * stored_size unit.ty unit.size }
    ensures { Wrote O.taken O.faults (dump_of layout unit.size (frames_of (stored_size unit.ty unit.size) count frames.now)) out.old out.new result }
{
    let mut rest = frames;
    let mut left = count;
    while left > 0 {
        let (block, more) = rest.split_at(stored_len(unit));
        write_all(out, piece_of(layout, unit, block))?;
        rest = more;
        left -= 1;
    }
    Ok(())
}

/// Writes the dump of so many stored blocks. Where a piece is all of its block, they are written as they lie.
fn write_dump<O: Sink>(
    out: &mut O,
    layout: Layout,
    unit: UnitSpec,
    count: u32,
    frames: &[u8],
) -> Result<(), Failed>
    requires { length frames.now ≡ count * stored_size unit.ty unit.size }
    ensures { Wrote O.taken O.faults (dump_of layout unit.size (frames_of (stored_size unit.ty unit.size) count frames.now)) out.old out.new result }
{
    match layout {
        Layout::Interleaved => write_all(out, frames),
        Layout::Plain | Layout::Tuples => write_pieces(out, layout, unit, count, frames),
    }
}

/// Reads the blocks of a stretch into `into`, which has just their length, and writes their dump.
fn export_piece<S: Store, O: Sink>(
    store: &mut S,
    image: &Image,
    at: Stretch,
    layout: Layout,
    into: &mut [u8],
    out: &mut O,
) -> Result<(), WalkFault>
    requires place { IsStretch (units_open image.now) at }
    requires room { length into.old ≡ at.count * block_len (units_open image.now) at.dev }
    requires held { (S.state store.old).length ≡ image_size (units_open image.now) }
    ensures dumped { DumpEnds result layout (units_open image.now) at (S.state store.old).bytes
        (S.state store.old).faults (S.state store.new).faults (O.faults out.old) (O.faults out.new) (O.taken out.old) (O.taken out.new) }
    ensures store { WasRead (S.state store.old) (S.state store.new) }
    ensures sinks { O.faults out.old ≤ O.faults out.new }
    ensures calm { (result ≡ Err WalkFault.Sink → ⊥) → O.faults out.new ≡ O.faults out.old }
{
    match read_blocks(store, image, at, into) {
        Ok(()) => {}
        Err(Failed) => return Err(WalkFault::Store),
    }
    let unit = image.units()[at.dev as usize];
    match write_dump(out, layout, unit, at.count, into) {
        Ok(()) => Ok(()),
        Err(Failed) => Err(WalkFault::Sink),
    }
}

/// Writes the dump of the blocks of a place. They are read into `room` by stretches of as many blocks as
/// it holds.
fn export_all<S: Store, O: Sink>(
    store: &mut S,
    image: &Image,
    place: Stretch,
    layout: Layout,
    room: &mut [u8],
    out: &mut O,
) -> Result<(), WalkFault>
    requires place { IsStretch (units_open image.now) place }
    requires least { MOST_FRAME ≤ length room.old }
    requires held { (S.state store.old).length ≡ image_size (units_open image.now) }
    ensures dumped { DumpEnds result layout (units_open image.now) place (S.state store.old).bytes
        (S.state store.old).faults (S.state store.new).faults (O.faults out.old) (O.faults out.new) (O.taken out.old) (O.taken out.new) }
    ensures store { WasRead (S.state store.old) (S.state store.new) }
    ensures sinks { O.faults out.old ≤ O.faults out.new }
    ensures calm { (result ≡ Err WalkFault.Sink → ⊥) → O.faults out.new ≡ O.faults out.old }
{
    let len = block_bytes(image, place.dev);
    let most = blocks_in(room.len(), len);
    let mut left = place;
    while left.count > 0 {
        let piece = front_of(left, most);
        let bytes = piece.count as usize * len;
        match export_piece(store, image, piece, layout, &mut room[..bytes], out) {
            Ok(()) => {}
            Err(fault) => return Err(fault),
        }
        left = behind_of(image, left, piece.count);
    }
    Ok(())
}

/// Writes the dump of the stored blocks of a place, and nothing else. The blocks are read into `room` by
/// stretches of as many as it holds. The sink passes on all that it holds.
///
/// `Store` and `Sink` come only where their count of faults rose; then the beginning of the dump was written.
/// No byte of the store changes. Unless `Sink` comes the sink's count stayed.
pub fn export_blocks<S: Store, O: Sink>(
    store: &mut S,
    image: &Image,
    place: Stretch,
    layout: Layout,
    room: &mut [u8],
    out: &mut O,
) -> Result<(), WalkFault>
    requires place { IsStretch (units_open image.now) place }
    requires least { MOST_FRAME ≤ length room.old }
    requires held { (S.state store.old).length ≡ image_size (units_open image.now) }
    ensures dumped { DumpEnds result layout (units_open image.now) place (S.state store.old).bytes
        (S.state store.old).faults (S.state store.new).faults (O.faults out.old) (O.faults out.new) (O.taken out.old) (O.taken out.new) }
    ensures store { WasRead (S.state store.old) (S.state store.new) }
    ensures sinks { O.faults out.old ≤ O.faults out.new }
    ensures calm { (result ≡ Err WalkFault.Sink → ⊥) → O.faults out.new ≡ O.faults out.old }
    ensures handed { (result ≡ Err WalkFault.Sink → ⊥) → O.passed out.new ≡ O.taken out.new }
{
    let ended = export_all(store, image, place, layout, room, out);
    match out.flush() {
        Ok(()) => ended,
        Err(Failed) => Err(WalkFault::Sink),
    }
}
