//! Whose blocks a command carried.

ghost use Rattle.std.specs.Prelude.{◌≡◌, IfOk};
ghost use Rattle.report_text.specs.Writing.{Wrote};
ghost use Rattle.run_words.specs.Texts.{begun, ended_lines, goes_on, longer, next_run, run_line, run_lines, runs_of};

use crate::guide::{OpSite, site_of};
use dix_base::{Failed, Sink};
use fault_schedule::Label;
use report_text::{Line, add, add_number, write_all};

/// Neighbouring blocks of one op.
#[derive(Clone, Copy, Debug, PartialEq, Eq)]
pub(crate) struct Run {
    pub(crate) op: u32,
    pub(crate) first: u32,
    pub(crate) last: u32,
}

fn begun(label: Label) -> Run
    ensures { result ≡ begun label }
{
    Run {
        op: label.op,
        first: label.k,
        last: label.k,
    }
}

/// Whether the next block of the same op has this label.
fn goes_on(run: Run, label: Label) -> bool
    ensures { result ≡ goes_on run label }
{
    label.op == run.op && u64::from(label.k) == u64::from(run.last) + 1
}

fn longer(run: Run, label: Label) -> Run
    ensures { result ≡ longer run label }
{
    Run {
        op: run.op,
        first: run.first,
        last: label.k,
    }
}

/// The line of a run.
fn run_line(sites: &[OpSite], run: Run) -> Line
    ensures { result.items ≡ run_line sites.now run }
{
    let mut line = Line::new();
    add(&mut line, b"  op ");
    add_number(&mut line, u64::from(run.op));
    add(&mut line, b" line ");
    add_number(&mut line, u64::from(site_of(sites, run.op).line));
    add(&mut line, b" blocks ");
    add_number(&mut line, u64::from(run.first));
    add(&mut line, b" to ");
    add_number(&mut line, u64::from(run.last));
    add(&mut line, b"\n");
    line
}

/// Writes the run where the next label doesn't carry it on, and gives the run that the label carries on or begins.
fn print_ended<O: Sink>(
    out: &mut O,
    sites: &[OpSite],
    run: Run,
    label: Label,
) -> Result<Run, Failed>
    ensures next { IfOk result (λ r. r ≡ next_run run label) }
    ensures wrote { Wrote O.taken O.faults (ended_lines sites.now run label) out.old out.new result }
{
    if goes_on(run, label) {
        return Ok(longer(run, label));
    }
    write_all(out, run_line(sites, run).as_slice())?;
    Ok(begun(label))
}

/// Writes a line for each longest run of labels of one op with neighbouring blocks.
pub(crate) fn print_runs<O: Sink>(
    out: &mut O,
    sites: &[OpSite],
    labels: &[Label],
) -> Result<(), Failed>
    ensures { Wrote O.taken O.faults (run_lines sites.now (runs_of labels.now)) out.old out.new result }
{
    let Some((label, rest)) = labels.split_first() else {
        return Ok(());
    };
    let mut run = begun(*label);
    for label in rest {
        run = print_ended(out, sites, run, *label)?;
    }
    write_all(out, run_line(sites, run).as_slice())
}
