//! Opening an image.

ghost use Rattle.std.specs.Prelude.{◌≡◌, length, MatchResult, OnOk};
ghost use Rattle.rig_api.specs.Head.{units_of};
ghost use Rattle.rig_discovery.specs.Openings.{HasKept, OpenedOnce, ImageWasOpened};
ghost use Rattle.image_commands.specs.Causes.{CauseUnopened};

use call_refusal::Refusal;
use rig_api::Rig;
use std::alloc::Global;

/// Opens the image of this name. `Image` comes exactly where its head has that fault, `RigFault` only
/// where the rig's count of faults rose.
pub fn open_image<R: Rig>(alloc: Global, name: &str, rig: &mut R) -> Result<(), Refusal>
    ensures opened { let old = R.state rig.old in
        let new = R.state rig.new in
        MatchResult result (λ _. ImageWasOpened name.now None old new) (λ r. CauseUnopened r name.now old new) }
    ensures devices { OnOk result ((R.state rig.new).standing.devices ≡ length (units_of (R.state rig.new).standing.head)) }
    ensures kept { HasKept (R.state rig.old) (R.state rig.new) }
    ensures opening { OpenedOnce name.now (R.state rig.old).standing (R.state rig.new).standing }
{
    rig.open(alloc, name)?;
    Ok(())
}
