//! The run of a script on a mirror.

ghost use Rattle.std.specs.Prelude.{◌≡◌, IfErr, MatchResult};
ghost use Rattle.run_command.specs.Verdict.{Facts};
ghost use Rattle.run_command.specs.Working.{IsSound};
ghost use Rattle.mirror_command.specs.Texts.{is_any_lost};
ghost use Rattle.mirror_command.specs.Verdict.{CauseRefused, CauseStopped, HasMirrored, HasMirroredSource, IsComplete};

use crate::binding::bind;
use crate::serving::serve;
use call_refusal::Refusal;
use dix_base::Source;
use mirror_volume::{
    Mirror, Repair, a_formed_mirror_has_one_good_leg, no_fault_is_enough_under_any_protect_field,
    one_good_leg_is_enough,
};
use rig_api::Rig;
use run_command::{is_any_bad, take_script};
use script_text::Script;
use std::alloc::Global;

/// A script that was run on a mirror to its end, and repaired.
#[derive(Drop)]
pub struct Mirrored {
    /// The mirror, all of whose ops are done.
    pub mirror: Mirror,
    /// What its repair did.
    pub repair: Repair,
}

/// Runs a script on a mirror over the image of this name: opens the image, asks all of its devices what they are, binds
/// the script to a mirror over them, does its ops one after another on both legs, and repairs the mirror.
///
/// The script keeps the rules of its language. Where memory is wanting in the middle, blocks of the op under way may
/// stand on one leg.
pub fn run_mirror<R: Rig>(
    alloc: Global,
    image: &str,
    script: Script,
    rig: &mut R,
) -> Result<Mirrored, Refusal>
    requires { IsSound script }
    ensures { let old = R.state rig.old in
        let new = R.state rig.new in
        MatchResult result (λ r. HasMirrored r script image.now old new) (λ r. CauseStopped r script image.now old new) }
{
    let devices = bind(alloc, image, &script, rig)?;
    let count = script.ops.as_slice().len();
    let mut mirror = Mirror::new(alloc, script, devices)?;
    // By laws.
    one_good_leg_is_enough();
    a_formed_mirror_has_one_good_leg();
    no_fault_is_enough_under_any_protect_field();
    let repair = serve(alloc, &mut mirror, count, rig)?;
    Ok(Mirrored { mirror, repair })
}

/// Reads the script that the source holds, to its end but no further than one byte more than a script may have, and then
/// runs it on a mirror over the image of this name.
pub fn mirror_source<S: Source, R: Rig>(
    alloc: Global,
    image: &str,
    source: &mut S,
    rig: &mut R,
) -> Result<Mirrored, Refusal>
    ensures verdict { let f : Facts = record {
      name = image.now;
      left = S.left source.old;
      left_after = S.left source.new;
      reads = S.faults source.old;
      reads_after = S.faults source.new;
      rig = R.state rig.old;
      rig_after = R.state rig.new;
    } in
        MatchResult result (λ r. HasMirroredSource r f) (λ r. CauseRefused r f) }
    ensures complete { let f : Facts = record {
      name = image.now;
      left = S.left source.old;
      left_after = S.left source.new;
      reads = S.faults source.old;
      reads_after = S.faults source.new;
      rig = R.state rig.old;
      rig_after = R.state rig.new;
    } in
        IfErr result (λ r. IsComplete r f) }
{
    let script = take_script(alloc, source)?;
    run_mirror(alloc, image, script, rig)
}

impl Mirrored {
    /// Whether some block failed, some stored block couldn't be altered, or some block is lost.
    pub fn has_bad(&self) -> bool
        ensures { result ≡ is_any_lost self.now.mirror.replies.items self.now.repair.lost }
    {
        is_any_bad(self.mirror.replies()) || self.repair.lost != 0
    }
}
