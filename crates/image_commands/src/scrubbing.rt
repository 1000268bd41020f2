//! Scrubbing an image.

ghost use Rattle.std.specs.Prelude.{◌≡◌, [], MatchResult, OnOk, length};
ghost use Rattle.rig_api.specs.Head.{units_of};
ghost use Rattle.rig_discovery.specs.Openings.{WasTold};
ghost use Rattle.call_refusal.specs.Causes.{CauseUntold};
ghost use Rattle.image_commands.specs.Causes.{CauseUnscrubbed, WasScrubbed};

use arrayvec::ArrayVec;
use call_refusal::Refusal;
use pi_scrub::{Found, scrub};
use rig_api::Rig;
use rig_discovery::told_devices;
use std::alloc::Global;
use volume_table::DeviceInfo;

/// Looks at every stored block of the image of this name, and puts those at fault into `found`, which
/// is empty at first; answers the devices, as the rig told them. No stored block changes.
pub fn scrub_image<R: Rig>(
    alloc: Global,
    name: &str,
    rig: &mut R,
    found: &mut Vec<Found>,
) -> Result<ArrayVec<DeviceInfo, 8>, Refusal>
    requires { found.old.items ≡ [] }
    ensures { let old = R.state rig.old in
        let new = R.state rig.new in
        MatchResult result (λ v. WasScrubbed name.now v.items found.new.items old new) (λ r. CauseUnscrubbed r name.now old new) }
{
    let devices = told_devices(alloc, name, rig)?;
    scrub(alloc, &devices, rig, found)?;
    Ok(devices)
}
