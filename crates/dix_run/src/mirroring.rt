//! Running a script on a mirror.

ghost use Rattle.call_verdict.specs.Words.{word_bytes};
ghost use Rattle.mirror_command.specs.Texts.{is_any_lost, mirror_text};
ghost use Rattle.dix_run.specs.Commands.{mirror_work};
ghost use Rattle.call_verdict.specs.Verdicts.{EndedAs, IsPassedOn, Written, done_status};
ghost use Rattle.dix_run.specs.Verdict.{Facts, dix};

use crate::refusal::Refusal;
use call_verdict::{Status, image_of, refuse, status_for};
use dix_base::{Failed, Sink, Source};
use mirror_command::{Mirrored, mirror_source, print_mirrored};
use rig_api::Rig;
use std::alloc::Global;

/// Writes the report of a script on a mirror, and what its repair did.
fn report_mirrored<O: Sink>(out: &mut O, run: &Mirrored) -> Status
    ensures written { Written (done_status (is_any_lost run.now.mirror.replies.items run.now.repair.lost))
        (mirror_text run.now.mirror.replies.items run.now.repair.repaired run.now.repair.lost) (O.taken out.old) (O.taken out.new) (O.faults out.old) (O.faults out.new) result }
    ensures handed { IsPassedOn result (O.passed out.new) (O.taken out.new) }
{
    match print_mirrored(out, run) {
        Ok(()) => status_for(run.has_bad()),
        Err(Failed) => Status::WriteFault,
    }
}

/// `mirror IMAGE`: runs the script of the source on a mirror, repairs it, and writes its report.
pub(crate) fn mirror_image<S: Source, R: Rig, O: Sink>(
    alloc: Global,
    words: &[String],
    source: &mut S,
    rig: &mut R,
    out: &mut O,
) -> Status
    ensures ended { let f : Facts = record {
      words = word_bytes words.now;
      left = S.left source.old;
      left_after = S.left source.new;
      reads = S.faults source.old;
      reads_after = S.faults source.new;
      rig = R.state rig.old;
      rig_after = R.state rig.new;
    } in
        EndedAs dix mirror_work f (O.taken out.old) (O.taken out.new) (O.faults out.old) (O.faults out.new) result }
    ensures handed { IsPassedOn result (O.passed out.new) (O.taken out.new) }
{
    match mirror_source(alloc, image_of(words), source, rig) {
        Ok(run) => report_mirrored(out, &run),
        Err(stop) => refuse(out, Refusal::Stopped(stop)),
    }
}
