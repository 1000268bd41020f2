//! The formatted image of units: a header, and blocks of zeros with proper tuples.

ghost use Rattle.std.specs.Prelude.{◌≡◌, ◌+◌, ◌≤◌, ◌++◌, OnOk, IsErrOf, length, replicate, take, true};
ghost use Rattle.std.specs.List.{list_all};
ghost use Rattle.dix_base.specs.Stores.{WasExtended};
ghost use Rattle.dix_base.specs.Told.{Appended, Rose};
ghost use Rattle.rig_api.specs.Frames.{joined, stored_size};
ghost use Rattle.rig_api.specs.Headers.{is_layout, is_spec, version_for};
ghost use Rattle.rig_api.specs.Image.{all_fresh, formatted, fresh};
ghost use Rattle.image_rig.specs.Short.{AppendedShort};
ghost use Rattle.image_rig.specs.Small.{is_small};

use dix_base::{Store, StoreFault};
use pi_tuple::{PiType, make, own_tag};
use rig_api::{MOST_FRAME, UnitSpec, Version, header, put_tuple, stored_size};
use std::alloc::Global;

/// Puts the tuple of a formatted block behind zeros: guard 0, which is that of zeros, application tag 0,
/// and the block's own reference tag.
fn put_fresh(frame: &mut [u8], ty: PiType, size: u32, lba: u64)
    requires long { length frame.old ≡ stored_size ty size }
    requires zeros { take size frame.old ≡ replicate size 0 }
    ensures frame { frame.new ≡ fresh ty size lba }
    ensures long { length frame.new ≡ stored_size ty size }
    ensures zeros { take size frame.new ≡ replicate size 0 }
{
    match ty {
        PiType::Zero => {}
        _ => put_tuple(frame, size as usize, make(0, 0, own_tag(ty, lba))),
    }
}

/// Appends the formatted blocks of a unit, which are made in `frame`.
fn append_blocks<S: Store>(
    alloc: Global,
    store: &mut S,
    unit: &UnitSpec,
    frame: &mut [u8],
) -> Result<(), StoreFault>
    requires unit { is_spec unit.now ≡ true }
    requires long { length frame.old ≡ stored_size unit.now.ty unit.now.size }
    requires zeros { take unit.now.size frame.old ≡ replicate unit.now.size 0 }
    ensures appended { OnOk result (Appended (joined (all_fresh unit.now)) (S.state store.old).bytes (S.state store.new).bytes) }
    ensures short { IsErrOf result StoreFault.Memory → AppendedShort (joined (all_fresh unit.now)) (S.state store.old).bytes (S.state store.new).bytes }
    ensures cause { IsErrOf result StoreFault.Failed → Rose (S.state store.old).faults (S.state store.new).faults }
    ensures stays { WasExtended (S.state store.old) (S.state store.new) }
{
    for k in 0..unit.blocks {
        put_fresh(frame, unit.ty, unit.size, unit.first + k);
        store.append(alloc, frame)?;
    }
    Ok(())
}

/// Appends the formatted blocks of a unit.
fn append_unit<S: Store>(alloc: Global, store: &mut S, unit: &UnitSpec) -> Result<(), StoreFault>
    requires { is_spec unit.now ≡ true }
    ensures appended { OnOk result (Appended (joined (all_fresh unit.now)) (S.state store.old).bytes (S.state store.new).bytes) }
    ensures short { IsErrOf result StoreFault.Memory → AppendedShort (joined (all_fresh unit.now)) (S.state store.old).bytes (S.state store.new).bytes }
    ensures cause { IsErrOf result StoreFault.Failed → Rose (S.state store.old).faults (S.state store.new).faults }
    ensures stays { WasExtended (S.state store.old) (S.state store.new) }
{
    let mut room = [0; MOST_FRAME];
    let size = stored_size(unit.ty, unit.size);
    append_blocks(alloc, store, unit, &mut room[..size])
}

/// Appends the header and the formatted blocks of these units.
pub(crate) fn append_formatted<S: Store>(
    alloc: Global,
    store: &mut S,
    units: &[UnitSpec],
) -> Result<(), StoreFault>
    requires { is_layout units.now ≡ true }
    ensures appended { OnOk result (Appended (formatted units.now) (S.state store.old).bytes (S.state store.new).bytes) }
    ensures short { IsErrOf result StoreFault.Memory → AppendedShort (formatted units.now) (S.state store.old).bytes (S.state store.new).bytes }
    ensures cause { IsErrOf result StoreFault.Failed → Rose (S.state store.old).faults (S.state store.new).faults }
    ensures stays { WasExtended (S.state store.old) (S.state store.new) }
{
    store.append(alloc, &header(version_for(units), units))?;
    for unit in units {
        append_unit(alloc, store, unit)?;
    }
    Ok(())
}

fn is_small(unit: UnitSpec) -> bool
    ensures { result ≡ is_small unit }
{
    unit.size == 512 && unit.first == 0
}

fn are_small(units: &[UnitSpec]) -> bool
    ensures { result ≡ list_all is_small units.now }
{
    units.iter().all(|u| is_small(*u))
}

/// The version in which these units are written.
fn version_for(units: &[UnitSpec]) -> Version
    ensures { result ≡ version_for units.now }
{
    if are_small(units) {
        Version::First
    } else {
        Version::Second
    }
}
