//! The text of records that say all: what was sent stands in them.

ghost use Rattle.std.specs.Prelude.{◌≤◌, ◌<◌, OnOk, drop, length, ◌≡◌};
ghost use Rattle.report_text.specs.Writing.{Wrote};
ghost use Rattle.rig_api.specs.Log.{entry_at};
ghost use Rattle.vector_runs.specs.RecordText.{record_text, records_text, vectors_text};

use dix_base::{Failed, Sink};
use rig_api::Rig;
use vector_lines::{in_of, out_of, write_first, write_vector};

/// Writes the line of record `i`.
fn write_record<O: Sink, R: Rig>(out: &mut O, rig: &R, i: u32) -> Result<(), Failed>
    requires { i < length (R.state rig.now).log }
    ensures { Wrote O.taken O.faults (record_text (entry_at (R.state rig.now).log i)) out.old out.new result }
{
    let what = rig.logged(i);
    let moved = rig.moved(i);
    let cdb = what.cdb.as_slice();
    let sent = out_of(cdb, moved);
    let came = in_of(cdb, moved);
    write_vector(out, what, sent, came)
}

fn write_records<O: Sink, R: Rig>(out: &mut O, rig: &R, from: u32) -> Result<(), Failed>
    requires { from ≤ length (R.state rig.now).log }
    ensures { Wrote O.taken O.faults (records_text (drop from (R.state rig.now).log)) out.old out.new result }
{
    for i in from..rig.records() {
        write_record(out, rig, i)?;
    }
    Ok(())
}

/// Writes the vectors of all records of a rig from number `from` on: those of commands whose moved bytes are all
/// that was sent. The sink passes on all that it holds.
///
/// `Failed` comes only where the sink's count of faults rose; then a prefix of the text was written. It takes
/// no memory.
pub fn print_records<O: Sink, R: Rig>(out: &mut O, rig: &R, from: u32) -> Result<(), Failed>
    requires { from ≤ length (R.state rig.now).log }
    ensures wrote { Wrote O.taken O.faults (vectors_text (drop from (R.state rig.now).log)) out.old out.new result }
    ensures handed { OnOk result (O.passed out.new ≡ O.taken out.new) }
{
    write_first(out)?;
    write_records(out, rig, from)?;
    out.flush()
}
