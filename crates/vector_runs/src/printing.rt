//! The text of a list that was done.

ghost use Rattle.std.specs.Prelude.{◌≡◌, ◌+◌, ◌<◌, ◌≤◌, OnOk, drop, length};
ghost use Rattle.report_text.specs.Writing.{Wrote};
ghost use Rattle.rig_api.specs.Log.{entry_at};
ghost use Rattle.vector_runs.specs.ListText.{has_sense, line_text, lines_text, list_text};

use dix_base::{Failed, Sink};
use rig_api::Rig;
use vector_lines::{VectorLine, in_of, write_first, write_vector};

/// Writes the line of record `i`, whose command is that of this line.
fn write_line<O: Sink, R: Rig>(
    out: &mut O,
    rig: &R,
    i: u32,
    line: &VectorLine,
) -> Result<(), Failed>
    requires { i < length (R.state rig.now).log }
    ensures { Wrote O.taken O.faults (line_text line.now (entry_at (R.state rig.now).log i)) out.old out.new result }
{
    let what = rig.logged(i);
    let came = in_of(what.cdb.as_slice(), rig.moved(i));
    write_vector(out, what, line.out.as_slice(), came)
}

fn write_lines<O: Sink, R: Rig>(
    out: &mut O,
    rig: &R,
    from: u32,
    lines: &[VectorLine],
) -> Result<(), Failed>
    requires { from + length lines.now ≤ length (R.state rig.now).log }
    ensures { Wrote O.taken O.faults (lines_text lines.now (drop from (R.state rig.now).log)) out.old out.new result }
{
    let mut i = from;
    for line in lines {
        write_line(out, rig, i, line)?;
        i += 1;
    }
    Ok(())
}

/// Writes the text of a list whose commands were done: of these records, from number `from` on, each with the
/// bytes that its line sends. The sink passes on all that it holds.
///
/// `Failed` comes only where the sink's count of faults rose; then a prefix of the text was written. It takes
/// no memory.
pub fn print_list<O: Sink, R: Rig>(
    out: &mut O,
    rig: &R,
    from: u32,
    lines: &[VectorLine],
) -> Result<(), Failed>
    requires { from + length lines.now ≤ length (R.state rig.now).log }
    ensures wrote { Wrote O.taken O.faults (list_text lines.now (drop from (R.state rig.now).log)) out.old out.new result }
    ensures handed { OnOk result (O.passed out.new ≡ O.taken out.new) }
{
    write_first(out)?;
    write_lines(out, rig, from, lines)?;
    out.flush()
}

/// Whether some record, from number `from` on, has a sense.
pub fn has_sense<R: Rig>(rig: &R, from: u32) -> bool
    requires { from ≤ length (R.state rig.now).log }
    ensures { result ≡ has_sense (drop from (R.state rig.now).log) }
{
    for i in from..rig.records() {
        if rig.logged(i).outcome.sense.is_some() {
            return true;
        }
    }
    false
}
