//! The ops of a mirror, and its repair.

ghost use Rattle.std.specs.Prelude.{◌≡◌, List, [], MatchResult, OnOk, is_some, length};
ghost use Rattle.mirror_volume.specs.Passed.{LegRun};
ghost use Rattle.mirror_volume.specs.Plans.{IsMirror};
ghost use Rattle.mirror_volume.specs.Running.{CanGoOn};
ghost use Rattle.mirror_command.specs.Stages.{Broke, Finished, IsMirrorBegun, Served, stage_of};
ghost use Rattle.rig_api.specs.State.{RigState};

use mirror_volume::{Mirror, Repair};
use rig_api::Rig;
use std::alloc::{AllocError, Global};

/// Does all ops of a mirror, of which there are so many.
fn do_ops<R: Rig>(
    alloc: Global,
    mirror: &mut Mirror,
    count: usize,
    rig: &mut R,
) -> Result<(), AllocError>
    requires ready { CanGoOn mirror.old (R.state rig.old) }
    requires begun { IsMirrorBegun mirror.old }
    requires count { count ≡ length mirror.old.plan.script.ops }
    ensures mirror { IsMirror mirror.new }
    ensures plan { mirror.new.plan ≡ mirror.old.plan }
    ensures ready { OnOk result (CanGoOn mirror.new (R.state rig.new)) }
    ensures done { let before : RigState = R.state rig.old in
        let after : RigState = R.state rig.new in
        MatchResult result
        (λ u. (runs : List LegRun) × Served mirror.old.plan.script mirror.old.plan.devices.items (stage_of mirror.old [] before) count (stage_of mirror.new runs after))
        (λ e. Broke mirror.old.plan.script mirror.old.plan.devices.items (stage_of mirror.old [] before) after) }
    ensures tells { is_some (R.state rig.new).image ≡ is_some (R.state rig.old).image }
    ensures standing { (R.state rig.new).standing ≡ (R.state rig.old).standing }
{
    for _ in 0..count {
        mirror.next(alloc, rig)?;
    }
    Ok(())
}

/// Does all ops of a mirror, and then repairs it.
pub(crate) fn serve<R: Rig>(
    alloc: Global,
    mirror: &mut Mirror,
    count: usize,
    rig: &mut R,
) -> Result<Repair, AllocError>
    requires ready { CanGoOn mirror.old (R.state rig.old) }
    requires begun { IsMirrorBegun mirror.old }
    requires count { count ≡ length mirror.old.plan.script.ops }
    ensures done { let before : RigState = R.state rig.old in
        let after : RigState = R.state rig.new in
        MatchResult result
        (λ done. Finished mirror.old.plan.script mirror.old.plan.devices.items (stage_of mirror.old [] before) mirror.new done.repaired done.lost after)
        (λ e. Broke mirror.old.plan.script mirror.old.plan.devices.items (stage_of mirror.old [] before) after) }
    ensures tells { is_some (R.state rig.new).image ≡ is_some (R.state rig.old).image }
    ensures standing { (R.state rig.new).standing ≡ (R.state rig.old).standing }
{
    do_ops(alloc, mirror, count, rig)?;
    mirror.repair(alloc, rig)
}
