//! The top call.

ghost use Rattle.call_verdict.specs.Verdicts.{IsPassedOn};
ghost use Rattle.call_verdict.specs.Words.{word_bytes};
ghost use Rattle.dix_run.specs.Headline.{Carries};
ghost use Rattle.dix_run.specs.Verdict.{Facts};

use crate::big::big;
use crate::commands::{format, migrate, scrub};
use crate::mirroring::mirror_image;
use crate::modes::modes;
use crate::nvme::nvme;
use crate::refusal::Refusal;
use crate::running::{run_image, trace_image};
use crate::{Command, command_of};
use call_verdict::{Status, refuse};
use dix_base::{Sink, Source};
use rig_api::Rig;
use std::alloc::Global;

/// Runs the program on its words, without its own name: does the command that they are, and writes
/// its text. Only `run`, `trace`, `mirror` and `nvme` read the source.
pub fn run<S: Source, R: Rig, O: Sink>(
    alloc: Global,
    words: &[String],
    script: &mut S,
    rig: &mut R,
    out: &mut O,
) -> Status
    ensures carries { let f : Facts = record {
      words = word_bytes words.now;
      left = S.left script.old;
      left_after = S.left script.new;
      reads = S.faults script.old;
      reads_after = S.faults script.new;
      rig = R.state rig.old;
      rig_after = R.state rig.new;
    } in
        Carries f (O.taken out.old) (O.taken out.new) (O.faults out.old) (O.faults out.new) result }
    ensures handed { IsPassedOn result (O.passed out.new) (O.taken out.new) }
{
    let Some(command) = command_of(words) else {
        return refuse(out, Refusal::Words);
    };
    match command {
        Command::Run => run_image(alloc, words, script, rig, out),
        Command::Trace => trace_image(alloc, words, script, rig, out),
        Command::Format(units) => format(alloc, words, &units, rig, out),
        Command::Migrate => migrate(alloc, words, rig, out),
        Command::Mirror => mirror_image(alloc, words, script, rig, out),
        Command::Scrub => scrub(alloc, words, rig, out),
        Command::Nvme => nvme(alloc, words, script, rig, out),
        Command::Modes(ty) => modes(alloc, ty, out),
        Command::Big { n, seed } => big(alloc, n, seed, out),
    }
}
