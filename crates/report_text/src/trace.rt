//! The trace.

ghost use Rattle.std.specs.Prelude.{◌≡◌, ◌+◌, ◌≤◌, ◌++◌, true, length, drop, codes, decimal, OnOk};
ghost use Rattle.report_text.specs.Writing.{Wrote};
ghost use Rattle.rig_api.specs.Log.{has_key};
ghost use Rattle.report_text.specs.Trace.{end_text, trace, trace_line};

use crate::line::{Line, add, add_hex, add_number};
use crate::writing::{write_all, write_hex};
use dix_base::{Failed, Sink};
use rig_api::{Outcome, Record, Rig};

fn front_of(dev: u32) -> Line
    ensures { result.items ≡ codes "x " ++ (decimal dev ++ codes " ") }
{
    let mut line = Line::new();
    add(&mut line, b"x ");
    add_number(&mut line, u64::from(dev));
    add(&mut line, b" ");
    line
}

fn end_of(outcome: Outcome) -> Line
    requires { has_key outcome.sense ≡ true }
    ensures { result.items ≡ end_text outcome }
{
    let mut line = Line::new();
    add(&mut line, b" ");
    add_number(&mut line, u64::from(outcome.done));
    add(&mut line, b" ");
    match outcome.sense {
        Some(sense) => add_hex(&mut line, sense.encode().as_slice()),
        None => add(&mut line, b"-"),
    }
    add(&mut line, b"\n");
    line
}

pub(crate) fn print_record<O: Sink>(out: &mut O, what: &Record) -> Result<(), Failed>
    requires { has_key what.now.outcome.sense ≡ true }
    ensures { Wrote O.taken O.faults (trace_line what.now) out.old out.new result }
{
    write_all(out, front_of(what.dev).as_slice())?;
    write_hex(out, what.cdb.as_slice())?;
    write_all(out, end_of(what.outcome).as_slice())
}

fn write_trace<O: Sink, R: Rig>(out: &mut O, rig: &R, from: u32) -> Result<(), Failed>
    requires { from ≤ length (R.state rig.now).log }
    ensures { Wrote O.taken O.faults (trace (drop from (R.state rig.now).log)) out.old out.new result }
{
    for i in from..rig.records() {
        print_record(out, rig.logged(i))?;
    }
    Ok(())
}

/// Writes the trace of a rig's records from number `from` on, counted from 0: a line for each
/// exchange with the device, the command descriptor block, the number of blocks that were done,
/// and the bytes of the sense data or `-`. There are at least `from` records. The sink passes on all
/// that it holds.
///
/// `Failed` comes only where the sink's count of faults rose; then a prefix of the trace was
/// written. It takes no memory.
pub fn print_trace<O: Sink, R: Rig>(out: &mut O, rig: &R, from: u32) -> Result<(), Failed>
    requires { from ≤ length (R.state rig.now).log }
    ensures wrote { Wrote O.taken O.faults (trace (drop from (R.state rig.now).log)) out.old out.new result }
    ensures handed { OnOk result (O.passed out.new ≡ O.taken out.new) }
{
    write_trace(out, rig, from)?;
    out.flush()
}
