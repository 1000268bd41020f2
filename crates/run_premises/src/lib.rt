//! What the laws of a run ask, read off the lines of the faults and the ops: whether tuples can show each fault, whether
//! a write may supply an escape, and what a run without faults leaves clean.
//!
//! What it says of faults holds in type 1 with tuples that are passed all the way and protect field 001b.
#![tactic(auto)]

ghost use Rattle.std.specs.Prelude.{ℕ, ◌≡◌, ◌+◌, ◌<◌, ◌↔◌, true, false, List, All, length, take};
ghost use Rattle.pi_guard.specs.declared.GuardKind.{GuardKind as AnyKind};
ghost use Rattle.pi_guard.specs.Guards.{crc};
ghost use Rattle.fault_schedule.specs.Altered.{altered};
ghost use Rattle.fault_schedule.specs.declared.Label.{Label};
ghost use Rattle.fault_schedule.specs.declared.fault.Crossing.{Crossing};
ghost use Rattle.fault_schedule.specs.declared.fault.FaultLine.{FaultLine};
ghost use Rattle.rig_api.specs.Frames.{data_of, tuple_of};
ghost use Rattle.stack_ops.specs.declared.op.Op.{Op as AnyOp};
ghost use Rattle.pi_tuple.specs.Finds.{is_zero};
ghost use Rattle.volume_table.specs.declared.device.DeviceInfo.{DeviceInfo as AnyDevice};
ghost use Rattle.block_path.specs.Acts.{State};
ghost use Rattle.run_laws.specs.Passed.{IsCalmRun, accounted, detectable, steps_from, Setting, script_walk, AreClean, NoEscape};
ghost use Rattle.run_laws.specs.ShownRun.{DevicesAreClean, HasCells, LiesOn};
ghost use Rattle.run_premises.specs.Forms.{escapes_none, is_near, is_seen, mask_of};
ghost use Rattle.run_premises.specs.FormedRun.{HasAccountedFaults, HasFormedFaults, IsOfBytes};
ghost use Rattle.pi_tuple.specs.declared.TheConstants.{TUPLE};

mod form;

pub use form::{
    FormedLines, accounts_by_form, escapes_none, first_escape, first_overwrite, formed_lines,
    shows_by_form,
};

/// A law: bytes of data and guard that are altered within two neighbouring ones, which aren't both xored with FFh, are
/// seen by either guard.
pub fn near_flips_are_seen()
    ensures { (kind : AnyKind) (mask : List ℕ) → All (λ x. x < 256) mask → is_near mask ≡ true → is_seen kind mask ≡ true }
{}

/// A law: of a frame of bytes with the CRC of its data as its guard, what lines alter is hidden exactly where the CRC of
/// all that they name for data and guard is 0. So the form is exact where the guard is the CRC.
pub fn the_form_is_exact_for_the_crc()
    ensures { (size : ℕ) (faults : List FaultLine) (at : Crossing) (label : Label) (frame : List ℕ) → All (λ (line : FaultLine). IsOfBytes line.kind) faults → length frame ≡ size + TUPLE
        → All (λ x. x < 256) frame → (tuple_of size frame).guard ≡ crc (data_of size frame)
        → ((tuple_of size (altered faults at label frame)).guard ≡ crc (data_of size (altered faults at label frame))) ↔ (crc (take (size + 2) (mask_of size faults at label)) ≡ 0) }
{}

/// A law: over a clean volume, with no escape, faults that have the form can each be shown.
pub fn faults_are_shown_by_their_form()
    ensures { (m : Setting) (ops : List AnyOp) (opening : State) → HasFormedFaults m ops opening → detectable m (steps_from m 1 ops) opening ≡ true }
{}

/// A law: so are faults of which each line has that form or says that the disk fails, loses or misdirects a block, as
/// far as no flip alters a misdirected block on its way to the medium: each is shown, or is of such a block.
pub fn faults_are_accounted_for_by_their_form()
    ensures { (m : Setting) (ops : List AnyOp) (opening : State) → HasAccountedFaults m ops opening → accounted m (steps_from m 1 ops) opening ≡ true }
{}

/// A law: no write supplies an escape where no `write` has the application tag FFFFh and no application brings tuples,
/// whatever stands in the pages and on the medium. This is for every type and mode.
pub fn no_write_supplies_an_escape_by_its_form()
    ensures { (m : Setting) (ops : List AnyOp) (opening : State) → escapes_none ops ≡ true → NoEscape m 1 ops opening }
{}

/// A law: a run without faults over a clean volume leaves a clean one: so the premise lasts from run to run.
pub fn a_calm_run_leaves_its_volume_clean()
    ensures { (m : Setting) (ops : List AnyOp) (opening : State) → IsCalmRun m ops opening → AreClean m (script_walk m ops opening).blocks }
{}

/// A law: so it does with all blocks of the volume's devices, where these have tuples.
pub fn a_calm_run_leaves_its_devices_clean()
    ensures { (m : Setting) (devices : List AnyDevice) (ops : List AnyOp) (opening : State) → is_zero m.ty ≡ false → IsCalmRun m ops opening → LiesOn m devices
        → HasCells m devices opening.blocks → DevicesAreClean m devices opening.blocks → DevicesAreClean m devices (script_walk m ops opening).blocks }
{}
