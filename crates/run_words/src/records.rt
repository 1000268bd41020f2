//! The records of a call.

ghost use Rattle.std.specs.Prelude.{◌≡◌, ◌≤◌, ◌++◌, codes, decimal, drop, length};
ghost use Rattle.report_text.specs.Writing.{Wrote};
ghost use Rattle.run_words.specs.Commands.{command_line};
ghost use Rattle.run_words.specs.Texts.{record_lines, run_lines, runs_of};

use crate::command::print_cdb;
use crate::guide::OpSite;
use crate::labels::print_runs;
use crate::sense::outcome_line;
use dix_base::{Failed, Sink};
use fault_schedule::Label;
use report_text::{Line, add, add_number, write_all};
use rig_api::{Record, Rig};

/// The number of a record and its device.
fn front_of(number: u64, dev: u32) -> Line
    ensures { result.items ≡ codes "command " ++ (decimal number ++ (codes " dev " ++ (decimal dev ++ codes " "))) }
{
    let mut line = Line::new();
    add(&mut line, b"command ");
    add_number(&mut line, number);
    add(&mut line, b" dev ");
    add_number(&mut line, u64::from(dev));
    add(&mut line, b" ");
    line
}

/// Writes the command of a record, and what came of it.
fn print_command<O: Sink>(out: &mut O, number: u64, what: &Record) -> Result<(), Failed>
    ensures { Wrote O.taken O.faults (command_line number what.now) out.old out.new result }
{
    write_all(out, front_of(number, what.dev).as_slice())?;
    print_cdb(out, what.cdb.as_slice())?;
    write_all(out, outcome_line(what.outcome).as_slice())
}

/// Writes a record: its command, and whose blocks it carried.
fn print_entry<O: Sink>(
    out: &mut O,
    number: u64,
    sites: &[OpSite],
    what: &Record,
    labels: &[Label],
) -> Result<(), Failed>
    ensures { Wrote O.taken O.faults (command_line number what.now ++ run_lines sites.now (runs_of labels.now)) out.old out.new result }
{
    print_command(out, number, what)?;
    print_runs(out, sites, labels)
}

/// Writes a rig's records from this one on, which is numbered 0.
pub(crate) fn print_records<O: Sink, R: Rig>(
    out: &mut O,
    sites: &[OpSite],
    rig: &R,
    from: u32,
) -> Result<(), Failed>
    requires { from ≤ length (R.state rig.now).log }
    ensures { Wrote O.taken O.faults (record_lines 0 sites.now (drop from (R.state rig.now).log)) out.old out.new result }
{
    for i in from..rig.records() {
        print_entry(
            out,
            u64::from(i - from),
            sites,
            rig.logged(i),
            rig.labels(i),
        )?;
    }
    Ok(())
}
