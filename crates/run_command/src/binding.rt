//! The volume of a script over the devices of a rig.

ghost use Rattle.std.specs.Prelude.{IfErr, IfOk};
ghost use Rattle.call_refusal.specs.Passed.{Ends};
ghost use Rattle.run_command.specs.Verdict.{HasTable};
ghost use Rattle.run_command.specs.Working.{CauseNoTable, IsSound};

use call_refusal::Refusal;
use script_text::Script;
use std::alloc::Global;
use volume_table::{DeviceInfo, VolumeTable};

/// The table of a script's volume over these devices, which are what an image's devices told of themselves. It refuses the
/// first entry that is at fault over them, or there is no memory.
pub fn table_of(
    alloc: Global,
    script: &Script,
    devices: &[DeviceInfo],
) -> Result<VolumeTable, Refusal>
    requires sound { IsSound script.now }
    requires ends { Ends devices.now }
    ensures table { IfOk result (λ t. HasTable script.now devices.now t) }
    ensures cause { IfErr result (λ r. CauseNoTable r script.now devices.now) }
{
    Ok(VolumeTable::new(alloc, &script.entries, devices, script.block)?)
}
