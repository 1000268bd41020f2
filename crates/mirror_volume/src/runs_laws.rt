//! What an op of a mirror comes to at the target.

ghost use Rattle.std.specs.Prelude.{ℕ, ◌≡◌, ◌+◌, ◌<◌, List, [], ◌∷◌, ◌++◌, length, map};
ghost use Rattle.page_pool.specs.Pages.{AreWhole};
ghost use Rattle.rig_api.specs.Target.{Stored};
ghost use Rattle.rig_discovery.specs.Discovery.{info_of};
ghost use Rattle.dix_adapter.specs.Ways.{shapes_of};
ghost use Rattle.stack_ops.specs.declared.reply.Reply.{Reply as AnyReply};
ghost use Rattle.volume_table.specs.declared.device.DeviceInfo.{DeviceInfo as AnyDevice};
ghost use Rattle.script_text.specs.declared.script.Script.{Script as AnyScript};
ghost use Rattle.mirror_volume.specs.LegsPassed.{table_of, AreStored};
ghost use Rattle.mirror_volume.specs.LegRuns.{AllWalked, LegRun};
ghost use Rattle.mirror_volume.specs.Mending.{Mended, RepairBy, stretches_in};
ghost use Rattle.mirror_volume.specs.OnOps.{OpBy, OpWalked, Sides};
ghost use Rattle.mirror_volume.specs.Standing.{IsBoundMirror, IsRepairedAs, StandsAt, half_of, op_at};

use crate::{a_read_on_a_leg_goes_its_ways, a_read_with_tuples_on_a_leg_goes_its_ways};

/// An op of a mirror that was done at the target goes on in the mirror's walk.
pub fn an_op_of_a_mirror_goes_on_in_its_walk()
    ensures { (s : AnyScript) (devices : List AnyDevice) (us now left : List Stored) (old new : Sides) (runs : List LegRun) (replies : List AnyReply) (reply : AnyReply) → IsBoundMirror s devices
        → devices ≡ map info_of (shapes_of now) → AreStored now → AreWhole old.pool → length old.pool ≡ s.pages → length old.marks ≡ half_of s devices → length replies < length s.ops
        → StandsAt s devices us old replies now → OpBy s (half_of s devices) (length replies + 1) (op_at s.ops (length replies)) old new runs reply
        → OpWalked (op_at s.ops (length replies)) (table_of s devices) now runs reply left → StandsAt s devices us new (replies ++ (reply ∷ [])) left }
{
    // By laws.
    a_read_on_a_leg_goes_its_ways();
}

/// The repair of a mirror that stands at its walk, done at the target, is the walk's repair.
pub fn a_repair_of_a_mirror_is_that_of_its_walk()
    ensures { (s : AnyScript) (devices : List AnyDevice) (us now left : List Stored) (sides : Sides) (replies : List AnyReply) (new : Mended) (runs : List LegRun) → IsBoundMirror s devices
        → devices ≡ map info_of (shapes_of now) → AreStored now → length sides.marks ≡ half_of s devices → StandsAt s devices us sides replies now
        → RepairBy s (half_of s devices) 0 (stretches_in (half_of s devices)) (record { marks = sides.marks; repaired = 0; lost = 0 }) new runs → AllWalked (table_of s devices) now runs left
        → IsRepairedAs s devices us (length replies) new.marks new.repaired new.lost left }
{
    // By laws.
    a_read_with_tuples_on_a_leg_goes_its_ways();
}
