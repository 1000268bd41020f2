//! Premises of the laws of a script's run that are read off the script: its faults are shown by their form, no write
//! supplies an escape, and what was formatted is clean.
#![tactic(auto)]

ghost use Rattle.std.specs.Prelude.{ℕ, ◌≡◌, ◌≤◌, ◌<◌, true, false, List, length, map, All};
ghost use Rattle.pi_tuple.specs.Finds.{is_zero};
ghost use Rattle.rig_api.specs.Image.{formatted, units_in};
ghost use Rattle.rig_api.specs.Target.{Stored};
ghost use Rattle.rig_api.specs.declared.units.UnitSpec.{UnitSpec as AnyUnit};
ghost use Rattle.volume_table.specs.Tables.{Table};
ghost use Rattle.run_premises.specs.Passed.{DevicesAreClean, IsShownRun, accounted, detectable, steps_from, as_expected, script_walk, Setting, NoEscape};
ghost use Rattle.script_stack.specs.Followed.{none_fails, opening_of, setting_of};
ghost use Rattle.script_stack.specs.Passed.{Script as AnyScript, blocks_told, cell_in, shapes_of, info_of};
ghost use Rattle.run_premises.specs.Forms.{escapes_none};
ghost use Rattle.script_form_laws.specs.FormedScript.{IsAccountedScript, IsFormedOver, IsFormedScript, IsStillScript};

use run_premises::{
    a_calm_run_leaves_its_devices_clean, faults_are_accounted_for_by_their_form,
    faults_are_shown_by_their_form, no_write_supplies_an_escape_by_its_form,
};

/// A law: of a script that was read and bound, whose faults have the form, over a clean volume and with no escape: each
/// fault can be shown.
pub fn a_script_is_shown_by_its_form()
    ensures { (s : AnyScript) (t : Table) (us : List Stored) → IsFormedOver s t us → IsFormedScript s t us
        → detectable (setting_of s t (shapes_of us) none_fails) (steps_from (setting_of s t (shapes_of us) none_fails) 1 s.ops) (opening_of s (shapes_of us) (blocks_told us)) ≡ true }
{
    // By laws.
    faults_are_shown_by_their_form();
}

/// A law: where its faults have the form that admits blocks which the disk fails, loses and misdirects too, each is shown
/// or is of such a block.
pub fn a_script_is_accounted_for_by_its_form()
    ensures { (s : AnyScript) (t : Table) (us : List Stored) → IsFormedOver s t us → IsAccountedScript s t us
        → accounted (setting_of s t (shapes_of us) none_fails) (steps_from (setting_of s t (shapes_of us) none_fails) 1 s.ops) (opening_of s (shapes_of us) (blocks_told us)) ≡ true }
{
    // By laws.
    faults_are_accounted_for_by_their_form();
}

/// A law: so it has all that the law of reads under faults asks: each block of a read is the last accepted write's, or
/// is listed with the first layer that checks after a fault. The form admits no shift, so the blocks of the volume are
/// the only ones that must be clean.
pub fn a_formed_script_is_a_shown_run()
    ensures { (s : AnyScript) (t : Table) (us : List Stored) → IsFormedOver s t us → IsFormedScript s t us
        → IsShownRun (setting_of s t (shapes_of us) none_fails) (map info_of (shapes_of us)) s.ops (opening_of s (shapes_of us) (blocks_told us)) }
{
    // By laws.
    faults_are_shown_by_their_form();
}

/// A law: a script without faults leaves clean devices clean, so the premise lasts from run to run.
pub fn a_still_script_leaves_its_devices_clean()
    ensures { (s : AnyScript) (t : Table) (us : List Stored) → IsFormedOver s t us → IsStillScript s t us
        → DevicesAreClean (setting_of s t (shapes_of us) none_fails) (map info_of (shapes_of us)) (blocks_told us)
        → DevicesAreClean (setting_of s t (shapes_of us) none_fails) (map info_of (shapes_of us))
        (script_walk (setting_of s t (shapes_of us) none_fails) s.ops (opening_of s (shapes_of us) (blocks_told us))).blocks }
{
    // By laws.
    a_calm_run_leaves_its_devices_clean();
}

/// A law: no write of a script supplies an escape where no `write` has the application tag FFFFh and there is no
/// `writepi`.
pub fn a_script_supplies_no_escape_by_its_form()
    ensures { (s : AnyScript) (t : Table) (us : List Stored) → escapes_none s.ops ≡ true
        → NoEscape (setting_of s t (shapes_of us) none_fails) 1 s.ops (opening_of s (shapes_of us) (blocks_told us)) }
{
    // By laws.
    no_write_supplies_an_escape_by_its_form();
}

/// A law: in the formatted image of at most eight units each block of each device with tuples is clean, for every
/// volume on them, where the application tag 0 is the expected one.
pub fn a_formatted_image_is_clean()
    ensures clean { (m : Setting) (units : List AnyUnit) → length units ≤ 8 → is_zero m.ty ≡ false → as_expected m 0 ≡ true → m.site.cell ≡ cell_in units
        → DevicesAreClean m (map info_of units) (blocks_told (units_in units (formatted units))) }
    ensures shapes { (units : List AnyUnit) → length units ≤ 8 → shapes_of (units_in units (formatted units)) ≡ units }
    ensures bytes { (units : List AnyUnit) → length units ≤ 8 → All (All (λ x. x < 256)) (blocks_told (units_in units (formatted units))) }
{}
