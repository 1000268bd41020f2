//! A script over an opened rig, to its end.

ghost use Rattle.std.specs.Prelude.{◌≡◌, IfOk, OnErr, OnOk, is_some, length, map, true};
ghost use Rattle.rig_api.specs.Telling.{specs_of};
ghost use Rattle.script_run_laws.specs.Passed.{info_of};
ghost use Rattle.stack_core.specs.Going.{StandsOver};
ghost use Rattle.script_stack.specs.Followed.{Ran, SizesAre};
ghost use Rattle.script_stack.specs.Beginning.{Begins, IsBoundTo};

use crate::laws::{
    a_script_run_is_backed, a_told_script_run_has_fallen, a_told_script_run_has_walked,
};
use crate::run::run_all;
use crate::start::{Run, start_script};
use rig_api::Rig;
use script_text::Script;
use stack_core::{Stack, a_finished_stack_has_sent, a_finished_stack_names_the_medium_seldom};
use std::alloc::{AllocError, Global};
use volume_table::{DeviceInfo, VolumeTable};

/// The stack of a script over a volume of a rig's devices, with the script's faults armed, and room in the rig for all
/// of its exchanges. Takes all the memory of the run; where that is wanting the armed faults are as before.
pub fn ready_script<R: Rig>(
    alloc: Global,
    script: Script,
    table: VolumeTable,
    devices: &[DeviceInfo],
    rig: &mut R,
) -> Result<Run, AllocError>
    requires bound { IsBoundTo script table devices.now }
    requires count { length devices.now ≡ (R.state rig.old).standing.devices }
    requires told { is_some (R.state rig.old).image ≡ true → devices.now ≡ map info_of (specs_of (R.state rig.old).standing) }
    ensures begins { IfOk result (Begins script table devices.now) }
    ensures stands { IfOk result (λ r. StandsOver r.stack (R.state rig.new)) }
    ensures armed { OnOk result (R.state rig.new ≡ record (R.state rig.old) { room = (R.state rig.new).room; armed = script.faults }) }
    ensures unarmed { OnErr result (R.state rig.new ≡ record (R.state rig.old) { room = (R.state rig.new).room }) }
{
    let faults = script.faults.copy(alloc)?;
    let run = start_script(alloc, script, table, devices)?;
    let blocks = run.stack.blocks();
    rig.reserve(alloc, blocks, blocks)?;
    rig.arm(faults);
    Ok(run)
}

/// Runs a script over an opened rig, to a volume of whose devices it is bound, and answers its stack, all of whose ops
/// have ended: arms its faults, takes all the memory of the run, and does the steps by these words and cuts, then always
/// the first step that may be taken. The script's own schedule isn't used.
///
/// Each step takes one entry of the schedule, as far as there are some: so the stack's `steps` says how many a caller has
/// used, who goes on behind them. The rig stands as it did: so another script can be run over it, bound to its devices.
pub fn run_bound<R: Rig>(
    alloc: Global,
    script: Script,
    table: VolumeTable,
    devices: &[DeviceInfo],
    schedule: &[(u32, u32)],
    rig: &mut R,
) -> Result<Stack, AllocError>
    requires bound { IsBoundTo script table devices.now }
    requires count { length devices.now ≡ (R.state rig.old).standing.devices }
    requires sizes { SizesAre devices.now (R.state rig.old).standing }
    requires told { is_some (R.state rig.old).image ≡ true → devices.now ≡ map info_of (specs_of (R.state rig.old).standing) }
    ensures ran { IfOk result (Ran script table devices.now schedule.now (R.state rig.old) (R.state rig.new)) }
    ensures tells { is_some (R.state rig.new).image ≡ is_some (R.state rig.old).image }
    ensures standing { (R.state rig.new).standing ≡ (R.state rig.old).standing }
    ensures unarmed { OnErr result (R.state rig.new ≡ record (R.state rig.old) { room = (R.state rig.new).room }) }
{
    let Run { mut stack, .. } = ready_script(alloc, script, table, devices, rig)?;
    run_all(&mut stack, schedule, rig);
    // By laws.
    a_script_run_is_backed();
    a_told_script_run_has_walked();
    a_finished_stack_has_sent();
    a_told_script_run_has_fallen();
    a_finished_stack_names_the_medium_seldom();
    Ok(stack)
}
