//! The scrub of all devices.

ghost use Rattle.std.specs.Prelude.{◌≡◌, ◌+◌, ◌<◌, ◌++◌, [], List, OnErr, OnOk, Some, length};
ghost use Rattle.dix_base.specs.Told.{Calm};
ghost use Rattle.rig_api.specs.Telling.{unit_at};
ghost use Rattle.rig_api.specs.State.{Stays};
ghost use Rattle.rig_api.specs.Target.{Stored};
ghost use Rattle.pi_scrub.specs.Faults.{all_faults, faults_of};
ghost use Rattle.pi_scrub.specs.Looks.{LookedPlace, all_places, info_at, places};
ghost use Rattle.rig_discovery.specs.Openings.{HasDevices};
ghost use Rattle.pi_scrub.specs.Scrubbed.{Looked};

use crate::found::Found;
use crate::look::look;
use rig_api::Rig;
use std::alloc::{AllocError, Global};
use volume_table::DeviceInfo;

/// A command looks at this many blocks at most.
const MOST: u64 = 1024;

/// Looks at every block of a device.
fn scrub_device<R: Rig>(
    alloc: Global,
    devices: &[DeviceInfo],
    dev: u32,
    rig: &mut R,
    found: &mut Vec<Found>,
) -> Result<(), AllocError>
    requires devices { HasDevices devices.now (R.state rig.old).standing (R.state rig.old).units }
    requires device { dev < length devices.now }
    ensures whole { OnOk result (Looked devices.now (places dev (info_at devices.now dev).first (info_at devices.now dev).blocks) [] found.old.items found.new.items
        (R.state rig.old).log (R.state rig.new).log (R.state rig.old).faults (R.state rig.new).faults) }
    ensures part { OnErr result ((left : List LookedPlace) × Looked devices.now (places dev (info_at devices.now dev).first (info_at devices.now dev).blocks) left found.old.items found.new.items
        (R.state rig.old).log (R.state rig.new).log (R.state rig.old).faults (R.state rig.new).faults) }
    ensures told { OnOk result ((us : List Stored) → (R.state rig.old).units ≡ Some us → Calm (R.state rig.old).faults (R.state rig.new).faults
        → found.new.items ≡ found.old.items ++ faults_of dev (unit_at us dev)) }
    ensures units { (R.state rig.new).units ≡ (R.state rig.old).units }
    ensures stays { Stays (R.state rig.old) (R.state rig.new) }
{
    let info = devices[dev as usize];
    let mut lba = info.first;
    let mut left = info.blocks;
    while left > 0 {
        let n = left.min(MOST) as u32;
        let settled = look(alloc, dev, info.ty, lba, n, rig, found)? as u64;
        lba += settled;
        left -= settled;
    }
    Ok(())
}

/// Looks at every stored block of the devices, by device and address, and puts those at fault into
/// `found`, which is empty at first. Each command is a VERIFY of at most 1,024 blocks, with VRPROTECT
/// 001b for types 1 and 3 and 000b for types 0 and 2; where one ends at a block, the next begins
/// behind it. The devices are those of the rig.
///
/// Over a rig that tells its blocks and has no fault the entries are exactly the blocks at fault.
/// Over any rig each entry has a record of its own that ended at its block, and each block was looked
/// at just once. No stored block changes. After want of memory `found` has what was found so far.
pub fn scrub<R: Rig>(
    alloc: Global,
    devices: &[DeviceInfo],
    rig: &mut R,
    found: &mut Vec<Found>,
) -> Result<(), AllocError>
    requires devices { HasDevices devices.now (R.state rig.old).standing (R.state rig.old).units }
    requires empty { found.old.items ≡ [] }
    ensures whole { OnOk result (Looked devices.now (all_places 0 devices.now) [] [] found.new.items (R.state rig.old).log (R.state rig.new).log (R.state rig.old).faults (R.state rig.new).faults) }
    ensures part { OnErr result ((left : List LookedPlace) × Looked devices.now (all_places 0 devices.now) left [] found.new.items
        (R.state rig.old).log (R.state rig.new).log (R.state rig.old).faults (R.state rig.new).faults) }
    ensures told { OnOk result ((us : List Stored) → (R.state rig.old).units ≡ Some us → Calm (R.state rig.old).faults (R.state rig.new).faults → found.new.items ≡ all_faults 0 us) }
    ensures units { (R.state rig.new).units ≡ (R.state rig.old).units }
    ensures stays { Stays (R.state rig.old) (R.state rig.new) }
{
    for dev in 0..devices.len() as u32 {
        scrub_device(alloc, devices, dev, rig, found)?;
    }
    Ok(())
}
