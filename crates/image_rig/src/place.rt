//! The units behind devices, and which changes of blocks can be made.

ghost use Rattle.std.specs.Prelude.{◌≡◌, ◌<◌, length, slice_index_or, true, ◌&&◌, eqb};
ghost use Rattle.rig_api.specs.Frames.{stored_size};
ghost use Rattle.rig_api.specs.Headers.{is_layout};
ghost use Rattle.rig_api.specs.Telling.{greatest, has_address, no_spec, source_of};
ghost use Rattle.image_rig.specs.Changes.{source_place};
ghost use Rattle.image_rig.specs.Places.{can_change_in, logical_of};

use crate::{block_place, has_address, place_of};
use rig_api::{Change, UnitSpec, stored_size};
use target_model::LogicalUnit;

fn has_source(units: &[UnitSpec], from: usize, at: u64, unit: UnitSpec) -> bool
    requires { from < length units.now }
    ensures { result ≡ (has_address (slice_index_or units.now from no_spec) at
        && eqb (stored_size (slice_index_or units.now from no_spec).ty (slice_index_or units.now from no_spec).size) (stored_size unit.ty unit.size)) }
{
    let source = units[from];
    has_address(source, at)
        && stored_size(source.ty, source.size) == stored_size(unit.ty, unit.size)
}

/// Whether a change can be made: there are such addresses, and the two blocks have one length.
pub(crate) fn can_change(units: &[UnitSpec], dev: usize, lba: u64, change: &Change) -> bool
    requires device { dev < length units.now }
    requires source { source_of change.now dev < length units.now }
    ensures { result ≡ can_change_in units.now dev lba change.now }
{
    let unit = units[dev];
    if !has_address(unit, lba) {
        return false;
    }
    match change {
        Change::Flip { .. } => true,
        Change::Copy { dev: from, lba: at } => has_source(units, *from as usize, *at, unit),
    }
}

/// The unit behind a device, with its place in the store.
pub(crate) fn logical(units: &[UnitSpec], dev: usize) -> LogicalUnit
    requires layout { is_layout units.now ≡ true }
    requires device { dev < length units.now }
    ensures { result ≡ logical_of units.now dev }
{
    let unit = units[dev];
    LogicalUnit {
        ty: unit.ty,
        blocks: unit.blocks,
        at: place_of(units, dev),
        size: unit.size,
        first: unit.first,
    }
}

/// The byte of the store at which the block begins that a change reads.
pub(crate) fn source_place(units: &[UnitSpec], dev: usize, lba: u64, change: &Change) -> u64
    requires layout { is_layout units.now ≡ true }
    requires device { dev < length units.now }
    requires source { source_of change.now dev < length units.now }
    requires can { can_change_in units.now dev lba change.now ≡ true }
    ensures { result ≡ source_place units.now dev lba change.now }
{
    match change {
        Change::Flip { .. } => block_place(units, dev, lba),
        Change::Copy { dev: from, lba: at } => block_place(units, *from as usize, *at),
    }
}

/// The greatest block size of the units.
pub(crate) fn greatest_size(units: &[UnitSpec]) -> u32
    ensures { result ≡ greatest units.now }
{
    let mut most = 0;
    for unit in units {
        most = unit.size.max(most);
    }
    most
}
