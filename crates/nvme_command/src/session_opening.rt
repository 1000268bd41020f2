//! A front of the devices that a rig has.

ghost use Rattle.std.specs.Prelude.{◌≡◌, None, IfErr, IfOk, length};
ghost use Rattle.rig_api.specs.Head.{head_fault, units_of};
ghost use Rattle.rig_api.specs.State.{Stays};
ghost use Rattle.rig_discovery.specs.Discovery.{HasFound};
ghost use Rattle.nvme_front.specs.Answers.{HasNamespaces};
ghost use Rattle.nvme_command.specs.Sessions.{CauseNoFront};

use call_refusal::Refusal;
use nvme_front::NvmFront;
use rig_api::Rig;
use rig_discovery::discover;
use std::alloc::Global;

/// Asks each device of a rig, whose image is open, what it is, and makes a front of them.
/// `BadCapacity` comes exactly where an answer is at fault, and names the first such device; a rig
/// that tells its blocks never causes it. No stored block changes.
pub fn front_of<R: Rig>(alloc: Global, rig: &mut R) -> Result<NvmFront, Refusal>
    requires right { head_fault (R.state rig.old).standing.head ≡ None }
    requires devices { (R.state rig.old).standing.devices ≡ length (units_of (R.state rig.old).standing.head) }
    ensures devices { IfOk result (λ f. HasNamespaces f (R.state rig.new).standing (R.state rig.new).units) }
    ensures found { IfOk result (λ f. HasFound (R.state rig.old).standing f (R.state rig.old).log (R.state rig.new).log) }
    ensures cause { IfErr result (λ e. CauseNoFront e (R.state rig.old).standing (R.state rig.old).units (R.state rig.old).log (R.state rig.new).log (R.state rig.old).image (R.state rig.new).image) }
    ensures units { (R.state rig.new).units ≡ (R.state rig.old).units }
    ensures stays { Stays (R.state rig.old) (R.state rig.new) }
{
    let count = rig.devices();
    rig.reserve(alloc, count, 0)?;
    let devices = discover(rig)?;
    Ok(NvmFront::new(alloc, &devices)?)
}
