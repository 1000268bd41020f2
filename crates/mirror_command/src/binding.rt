//! A script and the devices of its mirror.

ghost use Rattle.std.specs.Prelude.{MatchResult};
ghost use Rattle.rig_discovery.specs.Discovery.{Ends};
ghost use Rattle.run_command.specs.Working.{IsSound};
ghost use Rattle.mirror_command.specs.Verdict.{CauseStopped};
ghost use Rattle.mirror_command.specs.Working.{CauseUnbound, IsMirrorBound, IsFree};

use call_refusal::Refusal;
use mirror_script::bind_mirror;
use rig_api::Rig;
use rig_discovery::told_devices;
use run_command::table_of;
use script_text::Script;
use std::alloc::Global;
use volume_table::DeviceInfo;

/// Whether the script may run on a mirror over the volume of these devices.
fn bind_over(alloc: Global, script: &Script, devices: &[DeviceInfo]) -> Result<(), Refusal>
    requires sound { IsSound script.now }
    requires ends { Ends devices.now }
    ensures { MatchResult result (λ u. IsFree script.now devices.now) (λ r. CauseUnbound r script.now devices.now) }
{
    let table = table_of(alloc, script, devices)?;
    bind_mirror(script, &table, devices)?;
    Ok(())
}

/// Opens the image, asks its devices what they are, and binds the script to a mirror over them.
pub(crate) fn bind<R: Rig>(
    alloc: Global,
    image: &str,
    script: &Script,
    rig: &mut R,
) -> Result<Vec<DeviceInfo>, Refusal>
    requires { IsSound script.now }
    ensures { let old = R.state rig.old in
        let new = R.state rig.new in
        MatchResult result (λ v. IsMirrorBound script.now v.items image.now old new) (λ r. CauseStopped r script.now image.now old new) }
{
    let found = told_devices(alloc, image, rig)?;
    bind_over(alloc, script, &found)?;
    Ok(Vec::from_slice(alloc, &found)?)
}
