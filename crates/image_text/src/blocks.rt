//! The stored blocks of a place, line by line.

ghost use Rattle.std.specs.Prelude.{◌≡◌, ◌+◌, ◌*◌, ◌^◌, ◌<◌, ◌≤◌, length, OnOk, Err};
ghost use Rattle.rig_api.specs.Headers.{image_size};
ghost use Rattle.image_rig.specs.LayoutPlaces.{block_len};
ghost use Rattle.image_blocks.specs.Images.{units_open};
ghost use Rattle.image_blocks.specs.Places.{IsStretch};
ghost use Rattle.dix_base.specs.Stores.{WasRead};
ghost use Rattle.image_text.specs.Shown.{ShowEnds, both, lines_of, text_of};
ghost use Rattle.rig_api.specs.declared.TheConstants.{MOST_FRAME};

use crate::show::{Tally, write_blocks, write_first, write_last};
use dix_base::{Failed, Sink, Store};
use image_blocks::{
    Image, Stretch, WalkFault, behind_of, block_bytes, blocks_in, front_of, read_blocks,
};

/// Reads the blocks of a stretch into `into`, which has just their length, and writes their lines.
fn show_piece<S: Store, O: Sink>(
    store: &mut S,
    image: &Image,
    at: Stretch,
    into: &mut [u8],
    only_bad: bool,
    out: &mut O,
) -> Result<Tally, WalkFault>
    requires place { IsStretch (units_open image.now) at }
    requires room { length into.old ≡ at.count * block_len (units_open image.now) at.dev }
    requires held { (S.state store.old).length ≡ image_size (units_open image.now) }
    ensures shown { ShowEnds result (lines_of only_bad (units_open image.now) at) (units_open image.now) at (S.state store.old).bytes
        (S.state store.old).faults (S.state store.new).faults (O.faults out.old) (O.faults out.new) (O.taken out.old) (O.taken out.new) }
    ensures store { WasRead (S.state store.old) (S.state store.new) }
    ensures sinks { O.faults out.old ≤ O.faults out.new }
    ensures calm { (result ≡ Err WalkFault.Sink → ⊥) → O.faults out.new ≡ O.faults out.old }
{
    match read_blocks(store, image, at, into) {
        Ok(()) => {}
        Err(Failed) => return Err(WalkFault::Store),
    }
    let unit = image.units()[at.dev as usize];
    match write_blocks(out, only_bad, at.dev, unit, at.first, at.count, into) {
        Ok(tally) => Ok(tally),
        Err(Failed) => Err(WalkFault::Sink),
    }
}

/// The blocks of two pieces that were counted.
fn both(tally: Tally, more: Tally) -> Tally
    requires bad { tally.bad + more.bad < 2 ^ 32 }
    requires unchecked { tally.unchecked + more.unchecked < 2 ^ 32 }
    ensures { result ≡ both tally more }
{
    Tally {
        bad: tally.bad + more.bad,
        unchecked: tally.unchecked + more.unchecked,
    }
}

/// Writes the lines of the blocks of a place, and says how many are at fault or unchecked. They are read into `room` in
/// pieces of as many blocks as it holds.
fn show_lines<S: Store, O: Sink>(
    store: &mut S,
    image: &Image,
    place: Stretch,
    room: &mut [u8],
    only_bad: bool,
    out: &mut O,
) -> Result<Tally, WalkFault>
    requires place { IsStretch (units_open image.now) place }
    requires least { MOST_FRAME ≤ length room.old }
    requires held { (S.state store.old).length ≡ image_size (units_open image.now) }
    ensures shown { ShowEnds result (lines_of only_bad (units_open image.now) place) (units_open image.now) place (S.state store.old).bytes
        (S.state store.old).faults (S.state store.new).faults (O.faults out.old) (O.faults out.new) (O.taken out.old) (O.taken out.new) }
    ensures store { WasRead (S.state store.old) (S.state store.new) }
    ensures sinks { O.faults out.old ≤ O.faults out.new }
    ensures calm { (result ≡ Err WalkFault.Sink → ⊥) → O.faults out.new ≡ O.faults out.old }
{
    let len = block_bytes(image, place.dev);
    let most = blocks_in(room.len(), len);
    let mut left = place;
    let mut tally = Tally {
        bad: 0,
        unchecked: 0,
    };
    while left.count > 0 {
        let piece = front_of(left, most);
        let bytes = piece.count as usize * len;
        let more = match show_piece(store, image, piece, &mut room[..bytes], only_bad, out) {
            Ok(more) => more,
            Err(fault) => return Err(fault),
        };
        tally = both(tally, more);
        left = behind_of(image, left, piece.count);
    }
    Ok(tally)
}

/// Writes the first line, the lines of the blocks, and the last line.
fn show_all<S: Store, O: Sink>(
    store: &mut S,
    image: &Image,
    place: Stretch,
    room: &mut [u8],
    only_bad: bool,
    out: &mut O,
) -> Result<Tally, WalkFault>
    requires place { IsStretch (units_open image.now) place }
    requires least { MOST_FRAME ≤ length room.old }
    requires held { (S.state store.old).length ≡ image_size (units_open image.now) }
    ensures shown { ShowEnds result (text_of only_bad (units_open image.now) place) (units_open image.now) place (S.state store.old).bytes
        (S.state store.old).faults (S.state store.new).faults (O.faults out.old) (O.faults out.new) (O.taken out.old) (O.taken out.new) }
    ensures store { WasRead (S.state store.old) (S.state store.new) }
    ensures sinks { O.faults out.old ≤ O.faults out.new }
    ensures calm { (result ≡ Err WalkFault.Sink → ⊥) → O.faults out.new ≡ O.faults out.old }
{
    match write_first(out) {
        Ok(()) => {}
        Err(Failed) => return Err(WalkFault::Sink),
    }
    let tally = match show_lines(store, image, place, room, only_bad, out) {
        Ok(tally) => tally,
        Err(fault) => return Err(fault),
    };
    match write_last(out, place.count, tally) {
        Ok(()) => Ok(tally),
        Err(Failed) => Err(WalkFault::Sink),
    }
}

/// Writes a line for each stored block of a place, or for each at fault alone, between a first line and one that counts
/// the blocks, those at fault and those unchecked, and answers how many these are. The blocks are read into `room` in pieces of as many as it holds.
/// The sink passes on all that it holds.
///
/// `Store` and `Sink` come only where their count of faults rose; then the beginning of the text was written.
/// No byte of the store changes. Unless `Sink` comes the sink's count stayed.
pub fn show_blocks<S: Store, O: Sink>(
    store: &mut S,
    image: &Image,
    place: Stretch,
    room: &mut [u8],
    only_bad: bool,
    out: &mut O,
) -> Result<Tally, WalkFault>
    requires place { IsStretch (units_open image.now) place }
    requires least { MOST_FRAME ≤ length room.old }
    requires held { (S.state store.old).length ≡ image_size (units_open image.now) }
    ensures shown { ShowEnds result (text_of only_bad (units_open image.now) place) (units_open image.now) place (S.state store.old).bytes
        (S.state store.old).faults (S.state store.new).faults (O.faults out.old) (O.faults out.new) (O.taken out.old) (O.taken out.new) }
    ensures store { WasRead (S.state store.old) (S.state store.new) }
    ensures sinks { O.faults out.old ≤ O.faults out.new }
    ensures calm { (result ≡ Err WalkFault.Sink → ⊥) → O.faults out.new ≡ O.faults out.old }
    ensures handed { (result ≡ Err WalkFault.Sink → ⊥) → O.passed out.new ≡ O.taken out.new }
{
    let ended = show_all(store, image, place, room, only_bad, out);
    match out.flush() {
        Ok(()) => ended,
        Err(Failed) => Err(WalkFault::Sink),
    }
}
