//! What the laws of a mirror ask, read off the lines of the faults, the ops and the mirror's length: whether each fault
//! on both legs is shown by tuples or told by the medium, whether a write may supply an escape, and whether each block
//! has a leg on which nothing alters it and which the medium serves.
//!
//! What it says of faults holds in type 1 with tuples that are passed all the way and protect field 001b.
#![tactic(auto)]

ghost use Rattle.std.specs.Prelude.{ℕ, ◌≡◌, true, false, List};
ghost use Rattle.std.specs.List.{list_any};
ghost use Rattle.stack_ops.specs.declared.op.Op.{Op as AnyOp};
ghost use Rattle.volume_table.specs.declared.device.DeviceInfo.{DeviceInfo as AnyDevice};
ghost use Rattle.block_path.specs.Acts.{State};
ghost use Rattle.walk_laws.specs.Detectable.{accounted};
ghost use Rattle.walk_laws.specs.Settings.{Setting};
ghost use Rattle.walk_laws.specs.UnderMap.{NoneEscapes};
ghost use Rattle.stack_ops.specs.Ops.{is_overwrite};
ghost use Rattle.run_premises.specs.Forms.{escapes_none};
ghost use Rattle.mirror_laws.specs.OneGood.{OneGood, loses_none, script_asks};
ghost use Rattle.mirror_form_laws.specs.Forms.{leaves_a_leg};
ghost use Rattle.mirror_form_laws.specs.FormedMirror.{HasFormedLegs, HasStillLegs, ServesLast};

use mirror_laws::{a_mirror_reads_the_last_write, a_repair_makes_both_legs_equal};

/// A law: over clean legs, with no escape, faults that have the form can each be shown, or are of a block that the
/// medium fails, on both legs; and no block is lost.
pub fn faults_on_a_mirror_are_shown_by_their_form()
    ensures accounted { (m : Setting) (devices : List AnyDevice) (half : ℕ) (ops : List AnyOp) (opening : State) → HasFormedLegs m devices half ops opening
        → accounted m (script_asks m half ops opening) opening ≡ true }
    ensures kept { (m : Setting) (devices : List AnyDevice) (half : ℕ) (ops : List AnyOp) (opening : State) → HasFormedLegs m devices half ops opening
        → loses_none m (script_asks m half ops opening) ≡ true }
{}

/// A law: no write supplies an escape, on either leg, where no `write` has the application tag FFFFh and no application
/// brings tuples, whatever stands in the pages and on the medium.
pub fn no_write_on_a_mirror_supplies_an_escape_by_its_form()
    ensures { (m : Setting) (half : ℕ) (ops : List AnyOp) (opening : State) → escapes_none ops ≡ true → NoneEscapes m (script_asks m half ops opening) opening }
{}

/// A law: where no block is named on both legs, and no op overwrites a stored block, each block has a leg on which
/// nothing alters it, and whose medium does what is asked of it.
pub fn each_block_of_a_mirror_has_a_leg_by_its_form()
    ensures { (m : Setting) (half : ℕ) (ops : List AnyOp) (opening : State) → leaves_a_leg half m.site.faults ops ≡ true → list_any is_overwrite ops ≡ false → OneGood m half ops opening }
{}

/// A law: on a mirror of type 1 without faults, over clean legs that are equal, under any protect field with tuples: each
/// read is whole with the data that were last accepted, and after the repair both legs hold these and no block is lost.
pub fn a_still_mirror_serves_the_last_write_under_any_protect_field()
    ensures { (m : Setting) (devices : List AnyDevice) (half : ℕ) (ops : List AnyOp) (opening : State) → HasStillLegs m devices half ops opening → ServesLast m half ops opening }
{
    // By laws.
    a_mirror_reads_the_last_write();
    a_repair_makes_both_legs_equal();
}
