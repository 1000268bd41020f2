//! NVM commands on an image.

ghost use Rattle.call_verdict.specs.Words.{word_bytes};
ghost use Rattle.dix_run.specs.Commands.{nvme_work};
ghost use Rattle.call_verdict.specs.Verdicts.{EndedAs, IsPassedOn};
ghost use Rattle.dix_run.specs.Verdict.{Facts, dix};

use crate::refusal::Refusal;
use call_verdict::{Status, finish, image_of, refuse, status_for};
use dix_base::{Sink, Source};
use nvme_command::do_commands;
use rig_api::Rig;
use std::alloc::Global;

/// `nvme IMAGE`: does the NVM commands of the source's lines, and writes their completions.
pub(crate) fn nvme<S: Source, R: Rig, O: Sink>(
    alloc: Global,
    words: &[String],
    source: &mut S,
    rig: &mut R,
    out: &mut O,
) -> Status
    ensures ended { let f : Facts = record {
      words = word_bytes words.now;
      left = S.left source.old;
      left_after = S.left source.new;
      reads = S.faults source.old;
      reads_after = S.faults source.new;
      rig = R.state rig.old;
      rig_after = R.state rig.new;
    } in
        EndedAs dix nvme_work f (O.taken out.old) (O.taken out.new) (O.faults out.old) (O.faults out.new) result }
    ensures handed { IsPassedOn result (O.passed out.new) (O.taken out.new) }
{
    match do_commands(alloc, image_of(words), source, rig) {
        Ok(done) => finish(out, &done.text, status_for(done.bad)),
        Err(stop) => refuse(out, Refusal::Stopped(stop)),
    }
}
