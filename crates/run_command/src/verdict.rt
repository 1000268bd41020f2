//! The run of a script.

ghost use Rattle.std.specs.Prelude.{◌≡◌, ◌≤◌, IfErr, IfOk, MatchResult, OnOk, length};
ghost use Rattle.run_command.specs.Texts.{has_bad, is_bad};
ghost use Rattle.run_command.specs.Verdict.{CauseRefused, CauseStopped, Facts, HasRun, HasRunSource, IsComplete, StopsFromOutside};
ghost use Rattle.run_command.specs.Working.{IsBound, IsSound};

use crate::binding::table_of;
use crate::scripts::take_script;
use arrayvec::ArrayVec;
use call_refusal::Refusal;
use dix_base::Source;
use rig_api::Rig;
use rig_discovery::told_devices;
use run_laws::{
    a_read_is_the_last_stored_write_or_names_who_ends_it,
    a_read_is_the_last_write_or_names_the_first_layer,
};
use script_form_laws::{
    a_script_is_accounted_for_by_its_form, a_script_is_shown_by_its_form,
    a_script_supplies_no_escape_by_its_form,
};
use script_stack::{
    Run, a_script_run_is_backed, a_told_script_run_has_fallen, a_told_script_run_has_walked,
    ready_script, run_all,
};
use script_text::{Script, bind_script};
use stack_core::{Stack, a_finished_stack_has_sent, a_finished_stack_names_the_medium_seldom};
use stack_ops::Reply;
use stack_walk_laws::{
    a_stack_reads_the_last_write_or_fails_at_the_medium, a_stack_writes_or_fails_at_the_medium,
};
use std::alloc::Global;
use volume_table::{DeviceInfo, VolumeTable};
use walk_laws::a_calm_walk_is_a_plain_map;

/// A script that was run to its end.
#[derive(Drop)]
pub struct Finished {
    /// The stack, all of whose ops have ended.
    pub stack: Stack,
    /// The number of the first record of the call, from 0.
    pub first: u32,
}

/// The devices of an image that was opened, and the table of a script's volume over them.
#[derive(Drop)]
struct Bound {
    devices: ArrayVec<DeviceInfo, 8>,
    table: VolumeTable,
}

/// Opens the image, asks its devices what they are, and binds the script to its volume over them.
fn bind<R: Rig>(alloc: Global, image: &str, script: &Script, rig: &mut R) -> Result<Bound, Refusal>
    requires { IsSound script.now }
    ensures { let old = R.state rig.old in
        let new = R.state rig.new in
        MatchResult result (λ b. IsBound b script.now image.now old new) (λ r. CauseStopped r script.now image.now old new) }
{
    let devices = told_devices(alloc, image, rig)?;
    let table = table_of(alloc, script, &devices)?;
    bind_script(script, &table, &devices)?;
    Ok(Bound { devices, table })
}

/// Runs a script over the image of this name: opens the image, asks all of its devices what they are,
/// binds the script to its volume over them, takes all the memory of the run, and does the steps.
///
/// The script keeps the rules of its language. No step is done where a refusal is answered.
pub fn run_script<R: Rig>(
    alloc: Global,
    image: &str,
    script: Script,
    rig: &mut R,
) -> Result<Finished, Refusal>
    requires { IsSound script }
    ensures verdict { let old = R.state rig.old in
        let new = R.state rig.new in
        MatchResult result (λ r. HasRun r script image.now old new) (λ r. CauseStopped r script image.now old new) }
    ensures complete { let old = R.state rig.old in
        IfErr result (λ r. StopsFromOutside r script old) }
    ensures traced { IfOk result (λ r. r.first ≤ length (R.state rig.new).log) }
    ensures armed { OnOk result ((R.state rig.new).armed ≡ script.faults) }
{
    let first = rig.records();
    let bound = bind(alloc, image, &script, rig)?;
    let Bound { devices, table } = bound;
    let run = ready_script(alloc, script, table, &devices, rig)?;
    let Run {
        mut stack,
        schedule,
    } = run;
    run_all(&mut stack, schedule.as_slice(), rig);
    // By laws.
    a_script_run_is_backed();
    a_told_script_run_has_walked();
    a_finished_stack_has_sent();
    a_finished_stack_names_the_medium_seldom();
    a_told_script_run_has_fallen();
    a_calm_walk_is_a_plain_map();
    a_read_is_the_last_write_or_names_the_first_layer();
    a_read_is_the_last_stored_write_or_names_who_ends_it();
    a_script_is_shown_by_its_form();
    a_script_is_accounted_for_by_its_form();
    a_script_supplies_no_escape_by_its_form();
    a_stack_reads_the_last_write_or_fails_at_the_medium();
    a_stack_writes_or_fails_at_the_medium();
    Ok(Finished { stack, first })
}

/// Reads the script that the source holds, to its end but no further than one byte more than a script
/// may have, and then runs it over the image of this name.
pub fn run_source<S: Source, R: Rig>(
    alloc: Global,
    image: &str,
    source: &mut S,
    rig: &mut R,
) -> Result<Finished, Refusal>
    ensures verdict { let f : Facts = record {
      name = image.now;
      left = S.left source.old;
      left_after = S.left source.new;
      reads = S.faults source.old;
      reads_after = S.faults source.new;
      rig = R.state rig.old;
      rig_after = R.state rig.new;
    } in
        MatchResult result (λ r. HasRunSource r f) (λ r. CauseRefused r f) }
    ensures complete { let f : Facts = record {
      name = image.now;
      left = S.left source.old;
      left_after = S.left source.new;
      reads = S.faults source.old;
      reads_after = S.faults source.new;
      rig = R.state rig.old;
      rig_after = R.state rig.new;
    } in
        IfErr result (λ r. IsComplete r f) }
    ensures traced { IfOk result (λ r. r.first ≤ length (R.state rig.new).log) }
{
    let script = take_script(alloc, source)?;
    run_script(alloc, image, script, rig)
}

/// Whether this is the reply of an op of which something failed.
fn is_bad(reply: &Reply) -> bool
    ensures { result ≡ is_bad reply.now }
{
    match reply {
        Reply::Silent => false,
        Reply::Whole => false,
        Reply::Bad(_) => true,
        Reply::Shown(_) => false,
        Reply::Medium => true,
    }
}

/// Whether one of these is the reply of an op of which something failed: a block, or the alteration of a stored one.
pub fn is_any_bad(replies: &[Reply]) -> bool
    ensures { result ≡ has_bad replies.now }
{
    let mut rest = replies;
    while let Some((reply, behind)) = rest.split_first() {
        if is_bad(reply) {
            return true;
        }
        rest = behind;
    }
    false
}

impl Finished {
    /// Whether some block failed, or some stored block couldn't be altered.
    pub fn has_bad(&self) -> bool
        ensures { result ≡ has_bad self.now.stack.replies.items }
    {
        is_any_bad(self.stack.replies())
    }
}
