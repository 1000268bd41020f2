//! Formatting an image.

ghost use Rattle.std.specs.Prelude.{◌≡◌, MatchResult, true};
ghost use Rattle.rig_api.specs.Headers.{is_layout};
ghost use Rattle.image_commands.specs.Causes.{CauseUnformatted, WasFormatted};

use call_refusal::Refusal;
use rig_api::{Rig, UnitSpec};
use std::alloc::Global;

/// Makes the image of this name the formatted one of these units, 1 to 8 that an image may have.
/// After a fault of the rig the image may be anything; after want of memory it is as it was, or isn't opened.
pub fn format_image<R: Rig>(
    alloc: Global,
    name: &str,
    units: &[UnitSpec],
    rig: &mut R,
) -> Result<(), Refusal>
    requires { is_layout units.now ≡ true }
    ensures { let old = R.state rig.old in
        let new = R.state rig.new in
        MatchResult result (λ _. WasFormatted name.now units.now old new) (λ r. CauseUnformatted units.now r name.now old new) }
{
    rig.format(alloc, name, units)?;
    Ok(())
}
