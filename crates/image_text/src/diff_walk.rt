//! The stored blocks of two places, compared.

ghost use Rattle.std.specs.Prelude.{◌≡◌, ◌*◌, ◌≤◌, length, OnOk, Err};
ghost use Rattle.image_rig.specs.LayoutPlaces.{block_len};
ghost use Rattle.image_blocks.specs.Images.{units_open};
ghost use Rattle.image_blocks.specs.Places.{IsStretch};
ghost use Rattle.dix_base.specs.Stores.{WasRead};
ghost use Rattle.image_text.specs.Compared.{CanCompare, DiffEnds, counts, lines_of, pair_of, places, diff_of};
ghost use Rattle.rig_api.specs.declared.TheConstants.{MOST_FRAME};

use crate::fault::DiffFault;
use crate::{Pair, write_compared, write_diff_first, write_differences};
use dix_base::{Failed, Sink, Store};
use image_blocks::{Image, Stretch, behind_of, block_bytes, blocks_in, front_of, read_blocks};

/// Two places, each on its image.
#[derive(Clone, Copy)]
pub struct TwoPlaces<'a> {
    pub image: &'a Image,
    pub place: Stretch,
    pub other_image: &'a Image,
    pub to: Stretch,
}

/// The units in which two places lie.
fn pair_of(sides: TwoPlaces<'_>) -> Pair
    requires place { IsStretch (units_open sides.image.now) sides.place }
    requires other_place { IsStretch (units_open sides.other_image.now) sides.to }
    ensures { result ≡ pair_of (places (units_open sides.entry.image.now) sides.entry.place (units_open sides.entry.other_image.now) sides.entry.to) }
{
    Pair {
        dev: sides.place.dev,
        unit: sides.image.units()[sides.place.dev as usize],
        other_dev: sides.to.dev,
        other_unit: sides.other_image.units()[sides.to.dev as usize],
    }
}

/// Reads the blocks of two stretches into `into` and `other_into`, which have just their lengths, and writes the
/// lines of those that differ.
fn diff_piece<S: Store, T: Store, O: Sink>(
    store: &mut S,
    other: &mut T,
    sides: TwoPlaces<'_>,
    into: &mut [u8],
    other_into: &mut [u8],
    out: &mut O,
) -> Result<u32, DiffFault>
    requires places { CanCompare (places (units_open sides.image.now) sides.place (units_open sides.other_image.now) sides.to) (S.state store.old).length (T.state other.old).length }
    requires room { length into.old ≡ sides.place.count * block_len (units_open sides.image.now) sides.place.dev }
    requires other_room { length other_into.old ≡ sides.to.count * block_len (units_open sides.other_image.now) sides.to.dev }
    ensures compared { DiffEnds result (lines_of (places (units_open sides.entry.image.now) sides.entry.place (units_open sides.entry.other_image.now) sides.entry.to))
        (places (units_open sides.entry.image.now) sides.entry.place (units_open sides.entry.other_image.now) sides.entry.to)
        (S.state store.old).bytes (T.state other.old).bytes
        (counts (S.state store.old).faults (S.state store.new).faults (T.state other.old).faults (T.state other.new).faults (O.faults out.old) (O.faults out.new))
        (O.taken out.old) (O.taken out.new) }
    ensures first { WasRead (S.state store.old) (S.state store.new) }
    ensures second { WasRead (T.state other.old) (T.state other.new) }
    ensures sinks { O.faults out.old ≤ O.faults out.new }
    ensures calm { (result ≡ Err DiffFault.Sink → ⊥) → O.faults out.new ≡ O.faults out.old }
{
    match read_blocks(store, sides.image, sides.place, into) {
        Ok(()) => {}
        Err(Failed) => return Err(DiffFault::First),
    }
    match read_blocks(other, sides.other_image, sides.to, other_into) {
        Ok(()) => {}
        Err(Failed) => return Err(DiffFault::Second),
    }
    let (place, to) = (sides.place, sides.to);
    let pair = pair_of(sides);
    match write_differences(
        out,
        pair,
        place.first,
        to.first,
        place.count,
        into,
        other_into,
    ) {
        Ok(differ) => Ok(differ),
        Err(Failed) => Err(DiffFault::Sink),
    }
}

/// Writes the lines of the blocks of two places that differ, and says how many these are. They are read into `room`
/// and `other_room` in pieces of as many blocks as both hold.
fn diff_lines<S: Store, T: Store, O: Sink>(
    store: &mut S,
    other: &mut T,
    sides: TwoPlaces<'_>,
    room: &mut [u8],
    other_room: &mut [u8],
    out: &mut O,
) -> Result<u32, DiffFault>
    requires places { CanCompare (places (units_open sides.image.now) sides.place (units_open sides.other_image.now) sides.to) (S.state store.old).length (T.state other.old).length }
    requires least { MOST_FRAME ≤ length room.old }
    requires other_least { MOST_FRAME ≤ length other_room.old }
    ensures compared { DiffEnds result (lines_of (places (units_open sides.entry.image.now) sides.entry.place (units_open sides.entry.other_image.now) sides.entry.to))
        (places (units_open sides.entry.image.now) sides.entry.place (units_open sides.entry.other_image.now) sides.entry.to)
        (S.state store.old).bytes (T.state other.old).bytes
        (counts (S.state store.old).faults (S.state store.new).faults (T.state other.old).faults (T.state other.new).faults (O.faults out.old) (O.faults out.new))
        (O.taken out.old) (O.taken out.new) }
    ensures first { WasRead (S.state store.old) (S.state store.new) }
    ensures second { WasRead (T.state other.old) (T.state other.new) }
    ensures sinks { O.faults out.old ≤ O.faults out.new }
    ensures calm { (result ≡ Err DiffFault.Sink → ⊥) → O.faults out.new ≡ O.faults out.old }
{
    let TwoPlaces {
        image,
        place,
        other_image,
        to,
    } = sides;
    let len = block_bytes(image, place.dev);
    let other_len = block_bytes(other_image, to.dev);
    let fit = blocks_in(room.len(), len);
    let other_fit = blocks_in(other_room.len(), other_len);
    let most = fit.min(other_fit);
    let mut left = place;
    let mut other_left = to;
    let mut differ = 0u32;
    while left.count > 0 {
        let piece = front_of(left, most);
        let other_piece = front_of(other_left, most);
        let bytes = piece.count as usize * len;
        let other_bytes = other_piece.count as usize * other_len;
        let more = match diff_piece(
            store,
            other,
            TwoPlaces {
                image,
                place: piece,
                other_image,
                to: other_piece,
            },
            &mut room[..bytes],
            &mut other_room[..other_bytes],
            out,
        ) {
            Ok(more) => more,
            Err(fault) => return Err(fault),
        };
        differ += more;
        left = behind_of(image, left, piece.count);
        other_left = behind_of(other_image, other_left, other_piece.count);
    }
    Ok(differ)
}

/// Writes the first line, the lines of the blocks that differ, and the last line.
fn diff_all<S: Store, T: Store, O: Sink>(
    store: &mut S,
    other: &mut T,
    sides: TwoPlaces<'_>,
    room: &mut [u8],
    other_room: &mut [u8],
    out: &mut O,
) -> Result<u32, DiffFault>
    requires places { CanCompare (places (units_open sides.image.now) sides.place (units_open sides.other_image.now) sides.to) (S.state store.old).length (T.state other.old).length }
    requires least { MOST_FRAME ≤ length room.old }
    requires other_least { MOST_FRAME ≤ length other_room.old }
    ensures compared { DiffEnds result (diff_of (places (units_open sides.entry.image.now) sides.entry.place (units_open sides.entry.other_image.now) sides.entry.to))
        (places (units_open sides.entry.image.now) sides.entry.place (units_open sides.entry.other_image.now) sides.entry.to)
        (S.state store.old).bytes (T.state other.old).bytes
        (counts (S.state store.old).faults (S.state store.new).faults (T.state other.old).faults (T.state other.new).faults (O.faults out.old) (O.faults out.new))
        (O.taken out.old) (O.taken out.new) }
    ensures first { WasRead (S.state store.old) (S.state store.new) }
    ensures second { WasRead (T.state other.old) (T.state other.new) }
    ensures sinks { O.faults out.old ≤ O.faults out.new }
    ensures calm { (result ≡ Err DiffFault.Sink → ⊥) → O.faults out.new ≡ O.faults out.old }
{
    match write_diff_first(out) {
        Ok(()) => {}
        Err(Failed) => return Err(DiffFault::Sink),
    }
    let differ = match diff_lines(store, other, sides, room, other_room, out) {
        Ok(differ) => differ,
        Err(fault) => return Err(fault),
    };
    match write_compared(out, sides.place.count, differ) {
        Ok(()) => Ok(differ),
        Err(Failed) => Err(DiffFault::Sink),
    }
}

/// Writes a line for each two stored blocks of two places that differ, between a first line and one that counts the
/// blocks and those that differ, and answers how many these are. The places have as many blocks. Those of each are read
/// into half of `room`, in pieces of as many as both halves hold. The sink passes on all that it holds.
///
/// `First`, `Second` and `Sink` come only where that count of faults rose; then the beginning of the text was written.
/// No byte of a store changes. Unless `Sink` comes the sink's count stayed.
pub fn diff_blocks<S: Store, T: Store, O: Sink>(
    store: &mut S,
    other: &mut T,
    sides: TwoPlaces<'_>,
    room: &mut [u8],
    out: &mut O,
) -> Result<u32, DiffFault>
    requires places { CanCompare (places (units_open sides.image.now) sides.place (units_open sides.other_image.now) sides.to) (S.state store.old).length (T.state other.old).length }
    requires least { 8208 ≤ length room.old }
    ensures compared { DiffEnds result (diff_of (places (units_open sides.entry.image.now) sides.entry.place (units_open sides.entry.other_image.now) sides.entry.to))
        (places (units_open sides.entry.image.now) sides.entry.place (units_open sides.entry.other_image.now) sides.entry.to)
        (S.state store.old).bytes (T.state other.old).bytes
        (counts (S.state store.old).faults (S.state store.new).faults (T.state other.old).faults (T.state other.new).faults (O.faults out.old) (O.faults out.new))
        (O.taken out.old) (O.taken out.new) }
    ensures first { WasRead (S.state store.old) (S.state store.new) }
    ensures second { WasRead (T.state other.old) (T.state other.new) }
    ensures sinks { O.faults out.old ≤ O.faults out.new }
    ensures calm { (result ≡ Err DiffFault.Sink → ⊥) → O.faults out.new ≡ O.faults out.old }
    ensures handed { (result ≡ Err DiffFault.Sink → ⊥) → O.passed out.new ≡ O.taken out.new }
{
    let half = room.len() / 2;
    let (front, back) = room.split_at_mut(half);
    let ended = diff_all(store, other, sides, front, back, out);
    match out.flush() {
        Ok(()) => ended,
        Err(Failed) => Err(DiffFault::Sink),
    }
}
