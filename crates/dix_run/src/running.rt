//! Running a script on an image.

ghost use Rattle.std.specs.Prelude.{◌≤◌, ◌++◌, drop, length};
ghost use Rattle.call_verdict.specs.Words.{word_bytes};
ghost use Rattle.report_text.specs.Report.{report};
ghost use Rattle.report_text.specs.Trace.{trace};
ghost use Rattle.run_command.specs.Texts.{has_bad};
ghost use Rattle.dix_run.specs.Commands.{run_work, trace_work};
ghost use Rattle.call_verdict.specs.Verdicts.{EndedAs, IsPassedOn, Written, done_status};
ghost use Rattle.dix_run.specs.Verdict.{Facts, dix};

use crate::refusal::Refusal;
use call_verdict::{Status, image_of, refuse, status_for};
use dix_base::{Failed, Sink, Source};
use report_text::print_report;
use rig_api::Rig;
use run_command::{Finished, print_traced_run, run_source};
use std::alloc::Global;

/// Writes the report of a run.
fn report_run<O: Sink>(out: &mut O, run: &Finished) -> Status
    ensures written { Written (done_status (has_bad run.now.stack.replies.items)) (report run.now.stack.replies.items)
        (O.taken out.old) (O.taken out.new) (O.faults out.old) (O.faults out.new) result }
    ensures handed { IsPassedOn result (O.passed out.new) (O.taken out.new) }
{
    match print_report(out, run.stack.replies()) {
        Ok(()) => status_for(run.has_bad()),
        Err(Failed) => Status::WriteFault,
    }
}

/// Writes the report of a run, and behind it the trace of the records of its call.
fn trace_run<O: Sink, R: Rig>(out: &mut O, run: &Finished, rig: &R) -> Status
    requires { run.now.first ≤ length (R.state rig.now).log }
    ensures written { Written (done_status (has_bad run.now.stack.replies.items))
        (report run.now.stack.replies.items ++ trace (drop run.now.first (R.state rig.now).log)) (O.taken out.old) (O.taken out.new) (O.faults out.old) (O.faults out.new) result }
    ensures handed { IsPassedOn result (O.passed out.new) (O.taken out.new) }
{
    match print_traced_run(out, run, rig) {
        Ok(()) => status_for(run.has_bad()),
        Err(Failed) => Status::WriteFault,
    }
}

/// `run IMAGE`: runs the script of the source, and writes its report.
pub(crate) fn run_image<S: Source, R: Rig, O: Sink>(
    alloc: Global,
    words: &[String],
    source: &mut S,
    rig: &mut R,
    out: &mut O,
) -> Status
    ensures ended { let f : Facts = record {
      words = word_bytes words.now;
      left = S.left source.old;
      left_after = S.left source.new;
      reads = S.faults source.old;
      reads_after = S.faults source.new;
      rig = R.state rig.old;
      rig_after = R.state rig.new;
    } in
        EndedAs dix run_work f (O.taken out.old) (O.taken out.new) (O.faults out.old) (O.faults out.new) result }
    ensures handed { IsPassedOn result (O.passed out.new) (O.taken out.new) }
{
    match run_source(alloc, image_of(words), source, rig) {
        Ok(run) => report_run(out, &run),
        Err(stop) => refuse(out, Refusal::Stopped(stop)),
    }
}

/// `trace IMAGE`: as `run`, and writes the trace of this call's records behind the report.
pub(crate) fn trace_image<S: Source, R: Rig, O: Sink>(
    alloc: Global,
    words: &[String],
    source: &mut S,
    rig: &mut R,
    out: &mut O,
) -> Status
    ensures ended { let f : Facts = record {
      words = word_bytes words.now;
      left = S.left source.old;
      left_after = S.left source.new;
      reads = S.faults source.old;
      reads_after = S.faults source.new;
      rig = R.state rig.old;
      rig_after = R.state rig.new;
    } in
        EndedAs dix trace_work f (O.taken out.old) (O.taken out.new) (O.faults out.old) (O.faults out.new) result }
    ensures handed { IsPassedOn result (O.passed out.new) (O.taken out.new) }
{
    match run_source(alloc, image_of(words), source, rig) {
        Ok(run) => trace_run(out, &run, rig),
        Err(stop) => refuse(out, Refusal::Stopped(stop)),
    }
}
