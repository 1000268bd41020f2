//! Opening an image and asking its devices what they are.

ghost use Rattle.std.specs.Prelude.{◌≡◌, MatchResult, OnOk, length};
ghost use Rattle.rig_api.specs.Head.{units_of};
ghost use Rattle.rig_api.specs.declared.rig.RigFault.{RigFault};
ghost use Rattle.rig_discovery.specs.Openings.{WasTold, WhyUntold};
ghost use Rattle.rig_discovery.specs.declared.opening.Untold.{Untold};

use crate::discovery::{BadCapacity, discover};
use arrayvec::ArrayVec;
use rig_api::{Rig, RigFault};
use std::alloc::{AllocError, Global};
use volume_table::DeviceInfo;

/// Why it isn't known what the devices of an image are.
#[derive(Clone, Copy, Debug, PartialEq, Eq)]
pub enum Untold {
    /// The image isn't opened, or there is no memory.
    Rig(RigFault),
    /// A device's answer to READ CAPACITY(16) is at fault.
    Device(BadCapacity),
}

impl From<RigFault> for Untold {
    ghost from_gives = { λ fault untold. untold ≡ Untold.Rig fault };

    fn from(fault: RigFault) -> Untold {
        Untold::Rig(fault)
    }
}

impl From<AllocError> for Untold {
    ghost from_gives = { λ _ untold. untold ≡ Untold.Rig RigFault.Memory };

    fn from(_error: AllocError) -> Untold {
        Untold::Rig(RigFault::Memory)
    }
}

impl From<BadCapacity> for Untold {
    ghost from_gives = { λ bad untold. untold ≡ Untold.Device bad };

    fn from(bad: BadCapacity) -> Untold {
        Untold::Device(bad)
    }
}

/// Opens the image of this name and asks each of its devices what it is. `Rig` comes with a fault of the
/// head exactly where its head has that fault, with `Failed` only where the rig's count of faults rose.
pub fn told_devices<R: Rig>(
    alloc: Global,
    name: &str,
    rig: &mut R,
) -> Result<ArrayVec<DeviceInfo, 8>, Untold>
    ensures told { let old = R.state rig.old in
        let new = R.state rig.new in
        MatchResult result (λ v. WasTold name.now v.items old new) (λ u. WhyUntold u name.now old new) }
    ensures all { OnOk result ((R.state rig.new).standing.devices ≡ length (units_of (R.state rig.new).standing.head)) }
{
    rig.open(alloc, name)?;
    let count = rig.devices();
    rig.reserve(alloc, count, 0)?;
    Ok(discover(rig)?)
}
