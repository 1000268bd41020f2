//! Stretches of blocks, read and written.

ghost use Rattle.std.specs.Prelude.{◌≡◌, ◌+◌, ◌*◌, ◌≤◌, OnOk, length};
ghost use Rattle.dix_base.specs.Stores.{IsCounted, WasRead, WasWritten};
ghost use Rattle.dix_base.specs.Told.{Apart, Becomes};
ghost use Rattle.rig_api.specs.Headers.{image_size};
ghost use Rattle.image_rig.specs.LayoutPlaces.{block_len, block_place};
ghost use Rattle.image_blocks.specs.Blocks.{AreLeft, ArePut, HasStretch, blocks_of};
ghost use Rattle.image_blocks.specs.Images.{units_open};
ghost use Rattle.image_blocks.specs.Places.{IsStretch};

use crate::image::Image;
use crate::stretch::Stretch;
use dix_base::{Failed, Store};
use image_rig::place_of;
use rig_api::stored_size;

/// The byte of the image at which a stretch begins.
fn place_in(image: &Image, at: Stretch) -> u64
    requires { IsStretch (units_open image.now) at }
    ensures { result ≡ block_place (units_open image.now) at.dev at.first }
{
    let unit = image.units[at.dev as usize];
    place_of(&image.units, at.dev as usize)
        + (at.first - unit.first) * stored_size(unit.ty, unit.size) as u64
}

/// Reads the blocks of a stretch into `into`, which has just their length, by one call of the store. A call
/// that fails may leave anything there.
pub fn read_blocks<S: Store>(
    store: &mut S,
    image: &Image,
    at: Stretch,
    into: &mut [u8],
) -> Result<(), Failed>
    requires place { IsStretch (units_open image.now) at }
    requires room { length into.old ≡ at.count * block_len (units_open image.now) at.dev }
    requires held { (S.state store.old).length ≡ image_size (units_open image.now) }
    ensures read { OnOk result (HasStretch (units_open image.now) at (blocks_of (units_open image.now) at into.new) (S.state store.old).bytes) }
    ensures long { length into.new ≡ length into.old }
    ensures stays { WasRead (S.state store.old) (S.state store.new) }
    ensures counted { IsCounted result (S.state store.old) (S.state store.new) }
{
    store.read_at(place_in(image, at), into)
}

/// Writes these bytes over the blocks of a stretch, by one call of the store. They have just its length. A
/// call that fails may leave any blocks there, and leaves all else.
pub fn write_blocks<S: Store>(
    store: &mut S,
    image: &Image,
    at: Stretch,
    from: &[u8],
) -> Result<(), Failed>
    requires place { IsStretch (units_open image.now) at }
    requires room { length from.now ≡ at.count * block_len (units_open image.now) at.dev }
    requires held { (S.state store.old).length ≡ image_size (units_open image.now) }
    ensures put { OnOk result (ArePut (units_open image.now) at (blocks_of (units_open image.now) at from.now) (S.state store.old).bytes (S.state store.new).bytes) }
    ensures left { AreLeft (units_open image.now) at (S.state store.old).bytes (S.state store.new).bytes }
    ensures apart { Becomes (Apart (block_place (units_open image.now) at.dev at.first) (length from.now)) (S.state store.old).bytes (S.state store.new).bytes }
    ensures stays { WasWritten (S.state store.old) (S.state store.new) }
    ensures counted { IsCounted result (S.state store.old) (S.state store.new) }
{
    store.write_at(place_in(image, at), from)
}
