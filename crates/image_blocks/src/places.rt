//! Places in an image, judged against its units.

ghost use Rattle.std.specs.Prelude.{◌≡◌, ◌≤◌, ◌<◌, IfOk, List, length};
ghost use Rattle.rig_api.specs.declared.units.UnitSpec.{UnitSpec};
ghost use Rattle.image_rig.specs.LayoutPlaces.{block_len};
ghost use Rattle.image_blocks.specs.Images.{units_open};
ghost use Rattle.image_blocks.specs.Places.{IsStretch, behind_in, front_in, has_blocks, part_in, whole_in};
ghost use Rattle.rig_api.specs.declared.TheConstants.{MOST_FRAME};

use crate::image::Image;
use crate::stretch::{PlaceFault, Stretch};
use rig_api::{UnitSpec, stored_size};

/// All blocks of a unit.
pub fn whole_of(image: &Image, dev: u32) -> Result<Stretch, PlaceFault>
    ensures place { result ≡ whole_in (units_open image.now) dev }
    ensures there { IfOk result (IsStretch (units_open image.now)) }
{
    if dev as usize >= image.units.len() {
        return Err(PlaceFault::NoDevice);
    }
    let unit = image.units[dev as usize];
    Ok(Stretch {
        dev,
        first: unit.first,
        count: unit.blocks as u32,
    })
}

fn has_blocks(unit: UnitSpec, first: u64, count: u32) -> bool
    ensures { result ≡ has_blocks unit first count }
{
    unit.first <= first && first as u128 + count as u128 <= unit.first as u128 + unit.blocks as u128
}

/// So many blocks of a unit from an LBA on. `NoDevice` comes where there is no such unit, else `NoBlock`
/// where a block isn't the unit's.
pub fn part_of(image: &Image, dev: u32, first: u64, count: u32) -> Result<Stretch, PlaceFault>
    ensures place { result ≡ part_in (units_open image.now) dev first count }
    ensures there { IfOk result (IsStretch (units_open image.now)) }
{
    if dev as usize >= image.units.len() {
        return Err(PlaceFault::NoDevice);
    }
    if has_blocks(image.units[dev as usize], first, count) {
        Ok(Stretch { dev, first, count })
    } else {
        Err(PlaceFault::NoBlock)
    }
}

/// The first blocks of a stretch: at most so many.
pub fn front_of(at: Stretch, most: u32) -> Stretch
    ensures value { result ≡ front_in at most }
    ensures there { (us : List UnitSpec) → IsStretch us at → IsStretch us result }
{
    Stretch {
        dev: at.dev,
        first: at.first,
        count: at.count.min(most),
    }
}

/// The blocks of a stretch behind its first `n`.
pub fn behind_of(image: &Image, at: Stretch, n: u32) -> Stretch
    requires place { IsStretch (units_open image.now) at }
    requires has { n ≤ at.count }
    ensures value { result ≡ behind_in at n }
    ensures there { IsStretch (units_open image.now) result }
{
    Stretch {
        dev: at.dev,
        first: at.first + n as u64,
        count: at.count - n,
    }
}

/// The bytes of a stored block of a unit: its data, and its tuple where it has one.
pub fn block_bytes(image: &Image, dev: u32) -> usize
    requires { dev < length (units_open image.now) }
    ensures value { result ≡ block_len (units_open image.now) dev }
    ensures least { 512 ≤ result }
    ensures most { result ≤ MOST_FRAME }
{
    let unit = image.units[dev as usize];
    stored_size(unit.ty, unit.size)
}
