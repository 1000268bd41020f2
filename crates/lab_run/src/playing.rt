//! The vectors of a text.

ghost use Rattle.std.specs.Prelude.{◌≡◌, Some, drop, IfOk};
ghost use Rattle.call_verdict.specs.Words.{word_bytes};
ghost use Rattle.call_verdict.specs.Verdicts.{IsPassedOn, Written, done_status};
ghost use Rattle.dix_base.specs.Stores.{StoreState};
ghost use Rattle.lab_run.specs.declared.command.Command.{Command};
ghost use Rattle.vector_runs.specs.ListText.{has_sense};
ghost use Rattle.vector_runs.specs.Played.{AreLogged, first_of, played_text};
ghost use Rattle.lab_run.specs.Calls.{on_rig};
ghost use Rattle.lab_run.specs.Commands.{Came};

use crate::refusal::Refusal;
use call_verdict::{Status, image_of, status_for};
use dix_base::{Failed, Sink, Source};
use rig_api::Rig;
use std::alloc::Global;
use vector_runs::{Played, play_source, print_played};

/// Writes the vectors of a text whose commands were done.
fn print<R: Rig, O: Sink>(out: &mut O, rig: &R, played: &Played) -> Status
    requires { AreLogged played.now (R.state rig.now).log }
    ensures written { let entries = drop (first_of played.now) (R.state rig.now).log in
        Written (done_status (has_sense entries)) (played_text played.now entries) (O.taken out.old) (O.taken out.new) (O.faults out.old) (O.faults out.new) result }
    ensures handed { IsPassedOn result (O.passed out.new) (O.taken out.new) }
{
    let status = status_for(played.has_sense(rig));
    match print_played(out, rig, played) {
        Ok(()) => status,
        Err(Failed) => Status::WriteFault,
    }
}

/// `vectors IMAGE`: does the commands of the text that the source gives, and writes their vectors.
pub(crate) fn vectors<S: Source, R: Rig, O: Sink>(
    alloc: Global,
    words: &[String],
    input: &mut S,
    rig: &mut R,
    out: &mut O,
) -> Result<Status, Refusal>
    ensures came { (first second : StoreState) → Came (Some Command.Vectors) result
        (on_rig (word_bytes words.now) (S.left input.old) (S.left input.new) (S.faults input.old) (S.faults input.new) (R.state rig.old) (R.state rig.new) first second)
        (O.taken out.old) (O.taken out.new) (O.faults out.old) (O.faults out.new) }
    ensures handed { IfOk result (λ status. IsPassedOn status (O.passed out.new) (O.taken out.new)) }
{
    let played = play_source(alloc, image_of(words), input, rig)?;
    Ok(print(out, rig, &played))
}
