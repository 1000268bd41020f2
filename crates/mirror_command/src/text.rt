//! The text of a script on a mirror.

ghost use Rattle.std.specs.Prelude.{◌≡◌, OnOk};
ghost use Rattle.report_text.specs.Writing.{Wrote};
ghost use Rattle.mirror_command.specs.Texts.{mirror_text, repair_line};

use crate::mirrored::Mirrored;
use dix_base::{Failed, Sink};
use mirror_volume::Repair;
use report_text::{Line, add, add_number, print_report, write_out};

/// The line that says what a repair did.
fn repair_line(repair: Repair) -> Line
    ensures { result.items ≡ repair_line repair.repaired repair.lost }
{
    let mut line = Line::new();
    add(&mut line, b"repaired ");
    add_number(&mut line, u64::from(repair.repaired));
    add(&mut line, b" lost ");
    add_number(&mut line, u64::from(repair.lost));
    add(&mut line, b"\n");
    line
}

/// Writes the report of a script on a mirror: that of its ops, and behind it how many blocks were repaired and lost.
pub fn print_mirrored<O: Sink>(out: &mut O, run: &Mirrored) -> Result<(), Failed>
    ensures wrote { Wrote O.taken O.faults (mirror_text run.now.mirror.replies.items run.now.repair.repaired run.now.repair.lost) out.old out.new result }
    ensures handed { OnOk result (O.passed out.new ≡ O.taken out.new) }
{
    print_report(out, run.mirror.replies())?;
    write_out(out, repair_line(run.repair).as_slice())
}
