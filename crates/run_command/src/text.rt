//! The text of a run.

ghost use Rattle.std.specs.Prelude.{◌≤◌, ◌++◌, OnOk, drop, length, ◌≡◌};
ghost use Rattle.report_text.specs.Writing.{Wrote};
ghost use Rattle.report_text.specs.Report.{report};
ghost use Rattle.report_text.specs.Trace.{trace};

use crate::verdict::Finished;
use dix_base::{Failed, Sink};
use report_text::{print_report, print_trace};
use rig_api::Rig;

/// Writes the report of a run, and behind it the trace of all records of its call.
pub fn print_traced_run<O: Sink, R: Rig>(out: &mut O, run: &Finished, rig: &R) -> Result<(), Failed>
    requires { run.now.first ≤ length (R.state rig.now).log }
    ensures wrote { Wrote O.taken O.faults (report run.now.stack.replies.items ++ trace (drop run.now.first (R.state rig.now).log)) out.old out.new result }
    ensures handed { OnOk result (O.passed out.new ≡ O.taken out.new) }
{
    print_report(out, run.stack.replies())?;
    print_trace(out, rig, run.first)
}
