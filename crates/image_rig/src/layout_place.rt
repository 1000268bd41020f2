//! Where units and their blocks lie in an image.

ghost use Rattle.std.specs.Prelude.{◌≡◌, ◌+◌, ◌-◌, ◌*◌, ◌<◌, ◌≤◌, length, slice_index_or, true};
ghost use Rattle.rig_api.specs.Headers.{bytes_of, is_layout};
ghost use Rattle.rig_api.specs.Telling.{has_address, no_spec};
ghost use Rattle.image_rig.specs.LayoutPlaces.{block_place, place_of};

use crate::head::unit_bytes;
use rig_api::{UnitSpec, stored_size};

/// The byte of the image at which a unit's first block begins.
pub fn place_of(units: &[UnitSpec], dev: usize) -> u64
    requires layout { is_layout units.now ≡ true }
    requires device { dev < length units.now }
    ensures value { result ≡ place_of units.now dev }
    ensures bound { result + bytes_of (slice_index_or units.now dev no_spec) ≤ 512 + 8 * (65536 * 520) }
{
    let mut place = 512u64;
    for i in 0..dev {
        place += unit_bytes(units[i]);
    }
    place
}

/// The byte of the image at which the block at this LBA of a unit begins, which has it.
pub fn block_place(units: &[UnitSpec], dev: usize, lba: u64) -> u64
    requires layout { is_layout units.now ≡ true }
    requires device { dev < length units.now }
    requires address { has_address (slice_index_or units.now dev no_spec) lba ≡ true }
    ensures value { result ≡ block_place units.now dev lba }
{
    let unit = units[dev];
    place_of(units, dev) + (lba - unit.first) * stored_size(unit.ty, unit.size) as u64
}

/// Whether a unit has this LBA.
pub fn has_address(unit: UnitSpec, lba: u64) -> bool
    ensures { result ≡ has_address unit lba }
{
    unit.first <= lba && (lba as u128) < unit.first as u128 + unit.blocks as u128
}
