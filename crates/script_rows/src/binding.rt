//! Scripts that are bound to volumes of given devices, and to mirrors on them.

ghost use Rattle.std.specs.Prelude.{◌≡◌, ◌+◌, IsTrue, All, length};
ghost use Rattle.script_laws.specs.Keeping.{Keeps};
ghost use Rattle.volume_table.specs.Tables.{EndFits};

use crate::reading::judged;
use mirror_script::bind_mirror;
use script_laws::a_read_script_keeps_the_rules;
use script_text::{Script, ScriptFault, bind_script, read_script};
use std::alloc::{AllocError, Global};
use volume_table::{DeviceInfo, VolumeTable};

/// What a script is bound to: a volume, or the mirror whose legs are the volume's halves.
#[derive(Clone, Copy)]
pub(crate) enum Target {
    Volume,
    Mirror,
}

fn ends_in_64_bits(device: DeviceInfo) -> bool
    ensures { IsTrue result → EndFits device }
{
    device.blocks <= u64::MAX - device.first
}

fn end_in_64_bits(devices: &[DeviceInfo]) -> bool
    ensures { IsTrue result → All EndFits devices.now }
{
    for device in devices {
        if !ends_in_64_bits(*device) {
            return false;
        }
    }
    true
}

/// The volume of a script over these devices; none where its entries or the devices are at fault.
fn volume(alloc: Global, script: &Script, devices: &[DeviceInfo]) -> Option<VolumeTable>
    requires { Keeps script.now }
{
    if !end_in_64_bits(devices) {
        return None;
    }
    VolumeTable::new(alloc, &script.entries, devices, script.block).ok()
}

/// What comes of a script that is bound to a volume over these devices.
fn bound(
    script: &Script,
    target: Target,
    table: &VolumeTable,
    devices: &[DeviceInfo],
) -> Result<(), ScriptFault>
    requires keeps { Keeps script.now }
    requires lines { length script.now.lines ≡ length script.now.faults + length script.now.ops }
{
    match target {
        Target::Volume => bind_script(script, table, devices),
        Target::Mirror => bind_mirror(script, table, devices),
    }
}

/// The fault of a text's script over these devices, or ok.
pub(crate) fn bound_row(
    alloc: Global,
    text: &[u8],
    target: Target,
    devices: &[DeviceInfo],
) -> Result<String, AllocError> {
    let Ok(script) = read_script(alloc, text) else {
        return String::from_str(alloc, "not read");
    };
    a_read_script_keeps_the_rules(text, &script);
    match volume(alloc, &script, devices) {
        Some(table) => judged(alloc, bound(&script, target, &table, devices)),
        None => String::from_str(alloc, "no volume"),
    }
}
