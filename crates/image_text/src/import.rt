//! A dump to blocks.

ghost use Rattle.std.specs.Prelude.{◌≡◌, ◌+◌, ◌*◌, ◌^◌, ◌<◌, ◌≤◌, OnErr, OnOk, [], length};
ghost use Rattle.dix_base.specs.Told.{Rose};
ghost use Rattle.rig_api.specs.Frames.{frames_of};
ghost use Rattle.rig_api.specs.Headers.{image_size};
ghost use Rattle.image_rig.specs.LayoutPlaces.{block_len};
ghost use Rattle.image_blocks.specs.Images.{units_open};
ghost use Rattle.image_blocks.specs.Places.{IsStretch};
ghost use Rattle.dix_base.specs.Stores.{WasRead, WasWritten};
ghost use Rattle.image_text.specs.Ends.{ArePieces, AreSome, CanTake, HasOwn, ImportEnds, KeepsOutside, TakingEnds, behind_pieces, each_len, pieces_of};
ghost use Rattle.rig_api.specs.declared.TheConstants.{MOST_FRAME};

use crate::dumps_fault::ImportFault;
use crate::layout::{Layout, piece_len};
use crate::pieces::{fill, put_pieces};
use dix_base::{Failed, Source, Store};
use image_blocks::{
    Image, Stretch, behind_of, block_bytes, blocks_in, front_of, read_blocks, write_blocks,
};

/// Reads the blocks of a stretch into `frames`, which has just their length, where the pieces are tuples.
fn read_own<S: Store>(
    store: &mut S,
    image: &Image,
    at: Stretch,
    layout: Layout,
    frames: &mut [u8],
) -> Result<(), Failed>
    requires place { IsStretch (units_open image.now) at }
    requires room { length frames.old ≡ at.count * block_len (units_open image.now) at.dev }
    requires held { (S.state store.old).length ≡ image_size (units_open image.now) }
    ensures own { OnOk result (HasOwn layout (units_open image.now) at frames.new (S.state store.old).bytes) }
    ensures long { length frames.new ≡ length frames.old }
    ensures cause { OnErr result (Rose (S.state store.old).faults (S.state store.new).faults) }
    ensures store { WasRead (S.state store.old) (S.state store.new) }
{
    match layout {
        Layout::Tuples => read_blocks(store, image, at, frames),
        Layout::Interleaved | Layout::Plain => Ok(()),
    }
}

/// Stores what as many pieces make of the blocks of a stretch. These are made in `frames`, which has just
/// their length, from their own data where the pieces are tuples.
fn put_stretch<S: Store>(
    store: &mut S,
    image: &Image,
    at: Stretch,
    layout: Layout,
    pieces: &[u8],
    frames: &mut [u8],
) -> Result<(), Failed>
    requires place { CanTake layout (units_open image.now) at (S.state store.old).length }
    requires pieces { length pieces.now ≡ at.count * each_len layout (units_open image.now) at }
    requires room { length frames.old ≡ at.count * block_len (units_open image.now) at.dev }
    ensures put { OnOk result (ArePieces layout (units_open image.now) at
        (frames_of (each_len layout (units_open image.now) at) at.count pieces.now) [] (S.state store.old).bytes (S.state store.new).bytes) }
    ensures left { OnErr result (AreSome (units_open image.now) at (S.state store.old).bytes (S.state store.new).bytes) }
    ensures apart { KeepsOutside (units_open image.now) at (S.state store.old).bytes (S.state store.new).bytes }
    ensures cause { OnErr result (Rose (S.state store.old).faults (S.state store.new).faults) }
    ensures long { length frames.new ≡ length frames.old }
    ensures store { WasWritten (S.state store.old) (S.state store.new) }
{
    match read_own(store, image, at, layout, frames) {
        Ok(()) => {}
        Err(Failed) => return Err(Failed),
    }
    let unit = image.units()[at.dev as usize];
    put_pieces(layout, unit, at.first, at.count, pieces, frames);
    match write_blocks(store, image, at, frames) {
        Ok(()) => Ok(()),
        Err(Failed) => Err(Failed),
    }
}

/// Takes a piece for each block of a stretch, and stores what they make of the blocks. `pieces` and `frames`
/// have just their length.
fn take_stretch<S: Store, R: Source>(
    store: &mut S,
    image: &Image,
    at: Stretch,
    layout: Layout,
    source: &mut R,
    pieces: &mut [u8],
    frames: &mut [u8],
) -> Result<u32, ImportFault>
    requires place { CanTake layout (units_open image.now) at (S.state store.old).length }
    requires pieces { length pieces.old ≡ at.count * each_len layout (units_open image.now) at }
    requires room { length frames.old ≡ at.count * block_len (units_open image.now) at.dev }
    ensures taken { TakingEnds result layout (units_open image.now) at (length frames.old)
        (S.state store.old).faults (S.state store.new).faults (R.faults source.old) (R.faults source.new)
        (S.state store.old).bytes (S.state store.new).bytes (R.left source.old) (R.left source.new) }
    ensures apart { KeepsOutside (units_open image.now) at (S.state store.old).bytes (S.state store.new).bytes }
    ensures store { WasWritten (S.state store.old) (S.state store.new) }
    ensures calm { OnOk result (R.faults source.new ≡ R.faults source.old) }
    ensures sources { R.faults source.old ≤ R.faults source.new }
{
    let got = match fill(source, pieces) {
        Ok(got) => got,
        Err(Failed) => return Err(ImportFault::Source),
    };
    let unit = image.units()[at.dev as usize];
    let each = piece_len(layout, unit);
    let len = block_bytes(image, at.dev);
    let whole = (got / each).min(at.count as usize);
    let front = front_of(at, whole as u32);
    match put_stretch(
        store,
        image,
        front,
        layout,
        &pieces[..whole * each],
        &mut frames[..whole * len],
    ) {
        Ok(()) => {}
        Err(Failed) => return Err(ImportFault::Store),
    }
    if front.count < at.count {
        return Err(ImportFault::Short(front.count));
    }
    Ok(front.count)
}

/// The same fault behind so many pieces.
fn behind_pieces(done: u32, fault: ImportFault) -> ImportFault
    requires { done + pieces_of fault < 2 ^ 32 }
    ensures { result ≡ behind_pieces done fault }
{
    match fault {
        ImportFault::Short(more) => ImportFault::Short(done + more),
        ImportFault::Long => ImportFault::Long,
        ImportFault::Store => ImportFault::Store,
        ImportFault::Source => ImportFault::Source,
    }
}

/// Takes a piece for each block of a place, by stretches of as many blocks as `pieces` and `frames` hold.
fn take_all<S: Store, R: Source>(
    store: &mut S,
    image: &Image,
    place: Stretch,
    layout: Layout,
    source: &mut R,
    pieces: &mut [u8],
    frames: &mut [u8],
) -> Result<u32, ImportFault>
    requires place { CanTake layout (units_open image.now) place (S.state store.old).length }
    requires pieces { MOST_FRAME ≤ length pieces.old }
    requires frames { MOST_FRAME ≤ length frames.old }
    ensures taken { TakingEnds result layout (units_open image.now) place (length frames.old)
        (S.state store.old).faults (S.state store.new).faults (R.faults source.old) (R.faults source.new)
        (S.state store.old).bytes (S.state store.new).bytes (R.left source.old) (R.left source.new) }
    ensures apart { KeepsOutside (units_open image.now) place (S.state store.old).bytes (S.state store.new).bytes }
    ensures room { length pieces.new ≡ length pieces.old }
    ensures store { WasWritten (S.state store.old) (S.state store.new) }
    ensures calm { OnOk result (R.faults source.new ≡ R.faults source.old) }
    ensures sources { R.faults source.old ≤ R.faults source.new }
{
    let len = block_bytes(image, place.dev);
    let unit = image.units()[place.dev as usize];
    let each = piece_len(layout, unit);
    let most = blocks_in(pieces.len().min(frames.len()), len);
    let mut left = place;
    let mut done = 0u32;
    while left.count > 0 {
        let piece = front_of(left, most);
        let count = piece.count as usize;
        match take_stretch(
            store,
            image,
            piece,
            layout,
            source,
            &mut pieces[..count * each],
            &mut frames[..count * len],
        ) {
            Ok(more) => done += more,
            Err(fault) => return Err(behind_pieces(done, fault)),
        }
        left = behind_of(image, left, piece.count);
    }
    Ok(done)
}

/// Takes a piece for each block of a place from the source, stores what they make of the blocks, and answers
/// how many there are. `room` holds the pieces and blocks of a stretch. The dump ends there.
///
/// `Short` comes where the source is at its end before: the first blocks are those of the whole pieces, all
/// others as before. `Long` comes where a byte follows the pieces: it is taken, and all blocks are stored.
/// `Source` and `Store` come only where their count of faults rose; then the first blocks are those of some
/// pieces, and all others as before, but where the store failed some behind them may be anything: not more
/// than the room holds. However it ends, the length of the image and each byte outside of the place are as
/// before.
pub fn import_blocks<S: Store, R: Source>(
    store: &mut S,
    image: &Image,
    place: Stretch,
    layout: Layout,
    source: &mut R,
    room: &mut [u8],
) -> Result<u32, ImportFault>
    requires place { CanTake layout (units_open image.now) place (S.state store.old).length }
    requires least { 8208 ≤ length room.old }
    ensures imported { ImportEnds result layout (units_open image.now) place (length room.old)
        (S.state store.old).faults (S.state store.new).faults (R.faults source.old) (R.faults source.new)
        (S.state store.old).bytes (S.state store.new).bytes (R.left source.old) (R.left source.new) }
    ensures apart { KeepsOutside (units_open image.now) place (S.state store.old).bytes (S.state store.new).bytes }
    ensures store { WasWritten (S.state store.old) (S.state store.new) }
    ensures sources { R.faults source.old ≤ R.faults source.new }
{
    let half = room.len() / 2;
    let (pieces, frames) = room.split_at_mut(half);
    let count = match take_all(store, image, place, layout, source, pieces, frames) {
        Ok(count) => count,
        Err(fault) => return Err(fault),
    };
    match source.take(&mut pieces[..1]) {
        Ok(0) => Ok(count),
        Ok(_) => Err(ImportFault::Long),
        Err(Failed) => Err(ImportFault::Source),
    }
}
