//! The commands of a text done: those of a list, or those of a script's run.

ghost use Rattle.std.specs.Prelude.{◌≡◌, MatchResult, OnOk, drop};
ghost use Rattle.report_text.specs.Writing.{Wrote};
ghost use Rattle.run_command.specs.Verdict.{CauseStopped, Facts};
ghost use Rattle.run_command.specs.Working.{IsSound};
ghost use Rattle.vector_runs.specs.Answered.{CauseUnanswered};
ghost use Rattle.vector_runs.specs.ListText.{has_sense};
ghost use Rattle.vector_runs.specs.Played.{AreLogged, HasCome, ListPlayed, ScriptPlayed, first_of, played_text};

use crate::answering::answer_list;
use crate::printing::{has_sense, print_list};
use crate::records::print_records;
use crate::wanted::{Wanted, take_wanted};
use call_refusal::Refusal;
use dix_base::{Failed, Sink, Source};
use rig_api::Rig;
use run_command::{Finished, run_script};
use script_text::Script;
use std::alloc::Global;
use vector_lines::VectorLine;

/// A text whose commands were done.
#[derive(Drop)]
pub enum Played {
    /// A list.
    Listed {
        /// Its lines.
        lines: Vec<VectorLine>,
        /// The number of its first record, from 0.
        first: u32,
    },
    /// A script, which was run to its end.
    Ran(Finished),
}

/// Does the commands of a list.
fn play_list<R: Rig>(
    alloc: Global,
    image: &str,
    lines: Vec<VectorLine>,
    rig: &mut R,
) -> Result<Played, Refusal>
    ensures { let old = R.state rig.old in
        let new = R.state rig.new in
        MatchResult result (λ p. ListPlayed p lines.items image.now old new) (λ r. CauseUnanswered r image.now lines.items old new) }
{
    let first = rig.records();
    answer_list(alloc, image, &lines, rig)?;
    Ok(Played::Listed { lines, first })
}

/// Does the commands of a script.
fn play_script<R: Rig>(
    alloc: Global,
    image: &str,
    script: Script,
    rig: &mut R,
) -> Result<Played, Refusal>
    requires { IsSound script }
    ensures { let old = R.state rig.old in
        let new = R.state rig.new in
        MatchResult result (λ p. ScriptPlayed p script image.now old new) (λ r. CauseStopped r script image.now old new) }
{
    Ok(Played::Ran(run_script(alloc, image, script, rig)?))
}

/// Reads what the source holds, to its end, and does its commands over the image of this name. A list has commands
/// itself, each of which goes to its device as it stands; those of a script are those of its run: one READ CAPACITY(16)
/// for each device, and then those of its ops.
///
/// A text at fault is refused before the image is opened, and so is a script with a fault, a shift or an overwrite,
/// which have no vectors.
pub fn play_source<S: Source, R: Rig>(
    alloc: Global,
    image: &str,
    source: &mut S,
    rig: &mut R,
) -> Result<Played, Refusal>
    ensures { let f : Facts = record {
      name = image.now;
      left = S.left source.old;
      left_after = S.left source.new;
      reads = S.faults source.old;
      reads_after = S.faults source.new;
      rig = R.state rig.old;
      rig_after = R.state rig.new;
    } in
        HasCome result f }
{
    let wanted = take_wanted(alloc, source)?;
    match wanted {
        Wanted::Lines(lines) => play_list(alloc, image, lines, rig),
        Wanted::Script(script) => play_script(alloc, image, script, rig),
    }
}

/// Writes the vectors of a text whose commands were done on this rig. The sink passes on all that it holds.
///
/// `Failed` comes only where the sink's count of faults rose; then a prefix of the text was written. It takes
/// no memory.
pub fn print_played<O: Sink, R: Rig>(out: &mut O, rig: &R, played: &Played) -> Result<(), Failed>
    requires { AreLogged played.now (R.state rig.now).log }
    ensures wrote { Wrote O.taken O.faults (played_text played.now (drop (first_of played.now) (R.state rig.now).log)) out.old out.new result }
    ensures handed { OnOk result (O.passed out.new ≡ O.taken out.new) }
{
    match played {
        Played::Listed { lines, first } => print_list(out, rig, *first, lines),
        Played::Ran(run) => print_records(out, rig, run.first),
    }
}

impl Played {
    /// The number of the first record of the call.
    fn first(&self) -> u32
        ensures { result ≡ first_of self.now }
    {
        match self {
            Played::Listed { lines: _, first } => *first,
            Played::Ran(run) => run.first,
        }
    }

    /// Whether some of the commands, which were done on this rig, has a sense.
    pub fn has_sense<R: Rig>(&self, rig: &R) -> bool
        requires { AreLogged self.now (R.state rig.now).log }
        ensures { result ≡ has_sense (drop (first_of self.now) (R.state rig.now).log) }
    {
        has_sense(rig, self.first())
    }
}
