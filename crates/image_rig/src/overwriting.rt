//! Stored blocks changed without a command.

ghost use Rattle.std.specs.Prelude.{◌≡◌, ◌+◌, ◌<◌, ◌≤◌, IsOk, OnErr, OnOk, false, length, take, drop, true};
ghost use Rattle.dix_base.specs.Stores.{WasWritten};
ghost use Rattle.dix_base.specs.Told.{Apart, Becomes, Rose, over};
ghost use Rattle.image_rig.specs.Changes.{IsChanged, altered_by};
ghost use Rattle.image_rig.specs.LayoutPlaces.{block_len, block_place};
ghost use Rattle.image_rig.specs.Places.{can_change_in};
ghost use Rattle.rig_api.specs.Telling.{source_of};
ghost use Rattle.rig_api.specs.Headers.{image_size, is_layout};

use crate::block_place;
use crate::place::{can_change, source_place};
use dix_base::{Failed, Store};
use fault_schedule::xor_into;
use rig_api::{Change, MOST_FRAME, UnitSpec, stored_size};

fn alter(change: &Change, block: &mut [u8])
    ensures value { block.new ≡ altered_by change.now block.old }
    ensures long { length block.new ≡ length block.old }
{
    match change {
        Change::Flip { off, bytes } => xor_into(block, *off as usize, bytes.as_slice()),
        Change::Copy { .. } => {}
    }
}

/// Reads the block at one place of the store, changes it, and writes it at another. It is read into
/// `block`, which has its length.
fn overwrite_block<S: Store>(
    store: &mut S,
    from: u64,
    to: u64,
    change: &Change,
    block: &mut [u8],
) -> Result<(), Failed>
    requires source { from + length block.old ≤ (S.state store.old).length }
    requires target { to + length block.old ≤ (S.state store.old).length }
    ensures changed { OnOk result (Becomes (λ was is. is ≡ over to (altered_by change.now (take (length block.old) (drop from was))) was) (S.state store.old).bytes (S.state store.new).bytes) }
    ensures apart { Becomes (Apart to (length block.old)) (S.state store.old).bytes (S.state store.new).bytes }
    ensures cause { OnErr result (Rose (S.state store.old).faults (S.state store.new).faults) }
    ensures stays { WasWritten (S.state store.old) (S.state store.new) }
{
    store.read_at(from, block)?;
    alter(change, block);
    store.write_at(to, block)
}

/// Changes the block at an LBA of a unit, where the change can be made.
pub(crate) fn change_block<S: Store>(
    store: &mut S,
    units: &[UnitSpec],
    dev: usize,
    lba: u64,
    change: &Change,
) -> Result<(), Failed>
    requires layout { is_layout units.now ≡ true }
    requires device { dev < length units.now }
    requires source { source_of change.now dev < length units.now }
    requires held { (S.state store.old).length ≡ image_size units.now }
    ensures changed { can_change_in units.now dev lba change.now ≡ true
        → OnOk result (Becomes (IsChanged units.now dev lba change.now) (S.state store.old).bytes (S.state store.new).bytes) }
    ensures apart { Becomes (Apart (block_place units.now dev lba) (block_len units.now dev)) (S.state store.old).bytes (S.state store.new).bytes }
    ensures nowhere { can_change_in units.now dev lba change.now ≡ false → IsOk result × ((S.state store.new).faults ≡ (S.state store.old).faults) }
    ensures cause { OnErr result (Rose (S.state store.old).faults (S.state store.new).faults) }
    ensures stays { WasWritten (S.state store.old) (S.state store.new) }
{
    if !can_change(units, dev, lba, change) {
        return Ok(());
    }
    let unit = units[dev];
    let from = source_place(units, dev, lba, change);
    let to = block_place(units, dev, lba);
    let mut room = [0; MOST_FRAME];
    let len = stored_size(unit.ty, unit.size);
    overwrite_block(store, from, to, change, &mut room[..len])
}
