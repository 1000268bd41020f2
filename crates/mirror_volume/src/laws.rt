//! When one good leg of each block is enough.

ghost use Rattle.std.specs.Prelude.{ℕ, ◌≡◌, ◌+◌, ◌∷◌, ◌++◌, List, None, length};
ghost use Rattle.page_pool.specs.declared.segs.Seg.{Seg as AnySeg};
ghost use Rattle.stack_ops.specs.declared.op.Op.{Op as AnyOp};
ghost use Rattle.stack_ops.specs.declared.op.Op.TheVariants.{Fetch};
ghost use Rattle.stack_ops.specs.declared.reply.Reply.{Reply as AnyReply};
ghost use Rattle.rig_api.specs.Target.{Stored};
ghost use Rattle.volume_table.specs.declared.device.DeviceInfo.{DeviceInfo as AnyDevice};
ghost use Rattle.script_text.specs.declared.script.Script.{Script as AnyScript};
ghost use Rattle.mirror_laws.specs.declared.marks.Marks.{Marks as AnyMarks};
ghost use Rattle.mirror_volume.specs.Standing.{IsMirrorOver, IsRepairedAs, StandsAt};
ghost use Rattle.mirror_volume.specs.OnOps.{Sides};
ghost use Rattle.script_stack.specs.Causes.{table_of};
ghost use Rattle.mirror_volume.specs.LegsPassed.{mirror_fault};
ghost use Rattle.mirror_volume.specs.Rows.{devices, failing_script, script, still_script, us};
ghost use Rattle.mirror_volume.specs.Enough.{AllReadLast, HasReadLast, WasEnough};
ghost use Rattle.mirror_volume.specs.Premises.{HoldsBytes, IsFormedMirror, IsOneGoodRun, IsStillMirror};

use mirror_form_laws::{
    a_still_mirror_serves_the_last_write_under_any_protect_field,
    each_block_of_a_mirror_has_a_leg_by_its_form, faults_on_a_mirror_are_shown_by_their_form,
    no_write_on_a_mirror_supplies_an_escape_by_its_form,
};
use mirror_laws::{a_mirror_reads_the_last_write, a_repair_makes_both_legs_equal};

/// A law, over a rig that tells its blocks: where each block has a leg on which nothing alters it and whose medium does
/// what is asked of it, and no leg loses a block, each read of a mirror's walk is whole and has the data that were last
/// accepted. And of a mirror all of whose ops are done, and which was repaired: both legs hold these, and no block is lost.
pub fn one_good_leg_is_enough()
    ensures reads { (s : AnyScript) (devices : List AnyDevice) (us : List Stored) → IsMirrorOver s devices us → IsOneGoodRun s devices us → AllReadLast s devices us }
    ensures repaired { (s : AnyScript) (devices : List AnyDevice) (us left : List Stored) (marks : List AnyMarks) (repaired lost : ℕ)
        → IsMirrorOver s devices us → HoldsBytes us → IsOneGoodRun s devices us
        → IsRepairedAs s devices us (length s.ops) marks repaired lost left → WasEnough s devices us left lost }
{
    // By laws.
    a_mirror_reads_the_last_write();
    a_repair_makes_both_legs_equal();
}

/// A law: what that asks of the script can be read off its lines, its ops and the mirror's length.
pub fn a_formed_mirror_has_one_good_leg()
    ensures { (s : AnyScript) (devices : List AnyDevice) (us : List Stored) → IsMirrorOver s devices us → HoldsBytes us → IsFormedMirror s devices us → IsOneGoodRun s devices us }
{
    // By laws.
    faults_on_a_mirror_are_shown_by_their_form();
    no_write_on_a_mirror_supplies_an_escape_by_its_form();
    each_block_of_a_mirror_has_a_leg_by_its_form();
}

/// A law: without a fault line and without an overwrite it is so under any protect field.
pub fn no_fault_is_enough_under_any_protect_field()
    ensures reads { (s : AnyScript) (devices : List AnyDevice) (us : List Stored) → IsMirrorOver s devices us → HoldsBytes us → IsStillMirror s devices us → AllReadLast s devices us }
    ensures repaired { (s : AnyScript) (devices : List AnyDevice) (us left : List Stored) (marks : List AnyMarks) (repaired lost : ℕ)
        → IsMirrorOver s devices us → HoldsBytes us → IsStillMirror s devices us
        → IsRepairedAs s devices us (length s.ops) marks repaired lost left → WasEnough s devices us left lost }
{
    // By laws.
    a_still_mirror_serves_the_last_write_under_any_protect_field();
}

/// A law: where reads of a mirror's walk are so, and the mirror stands at its walk, a read that `next` has just done is
/// whole, and what landed in the pages are the data that were last accepted.
pub fn a_read_that_is_done_has_the_last_write()
    ensures { (s : AnyScript) (devices : List AnyDevice) (us left : List Stored) (sides : Sides) (replies : List AnyReply) (before after : List AnyOp) (v n : ℕ) (body : List AnySeg)
        → AllReadLast s devices us → StandsAt s devices us sides replies left → s.ops ≡ before ++ (Fetch v n body ∷ after) → length replies ≡ length before + 1
        → HasReadLast s devices us before v n body sides replies }
{}

/// That what these laws ask can be met: by a small script on a mirror over two formatted units, whose write leg 0
/// refuses, and by the same ops where the medium of leg 0 fails the write, or without a fault line, under any protect
/// field. The first two are bound as a mirror's, and so is the third under 011b and 100b.
pub fn premises_of_a_mirror_can_be_met()
    ensures one_good { IsOneGoodRun script devices us }
    ensures formed { IsFormedMirror script devices us }
    ensures failing { IsFormedMirror failing_script devices us }
    ensures still { (protect : ℕ) → IsStillMirror (still_script protect) devices us }
    ensures bound { mirror_fault script (table_of script devices) devices ≡ None }
    ensures failing_bound { mirror_fault failing_script (table_of failing_script devices) devices ≡ None }
    ensures still_bound { (mirror_fault (still_script 3) (table_of (still_script 3) devices) devices ≡ None) × (mirror_fault (still_script 4) (table_of (still_script 4) devices) devices ≡ None) }
{}
