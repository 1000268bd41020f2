//! The report.

ghost use Rattle.std.specs.Prelude.{◌≡◌, ◌+◌, ◌≤◌, ◌++◌, length, codes, decimal, OnOk};
ghost use Rattle.hex.specs.Hex.{encode_lower};
ghost use Rattle.report_text.specs.Writing.{Wrote};
ghost use Rattle.report_text.specs.Report.{bad_line, bad_lines, lines_of, op_line, report};

use crate::line::{Line, add, add_number};
use crate::why::add_why;
use crate::writing::{write_all, write_hex};
use dix_base::{Failed, Sink};
use stack_ops::{BadBlock, Reply};

/// `op`, the number, and a space.
fn op_front(number: u64) -> Line
    ensures items { result.items ≡ codes "op " ++ (decimal number ++ codes " ") }
    ensures bound { length result.items ≤ 64 }
{
    let mut line = Line::new();
    add(&mut line, b"op ");
    add_number(&mut line, number);
    add(&mut line, b" ");
    line
}

fn plain_line(number: u64, what: &[u8]) -> Line
    requires { length what.now ≤ 64 }
    ensures { result.items ≡ op_line number what.now }
{
    let mut line = op_front(number);
    add(&mut line, what);
    add(&mut line, b"\n");
    line
}

fn bad_front(number: u64, blocks: u64) -> Line
    ensures { result.items ≡ op_line number (codes "bad " ++ decimal blocks) }
{
    let mut line = op_front(number);
    add(&mut line, b"bad ");
    add_number(&mut line, blocks);
    add(&mut line, b"\n");
    line
}

fn line_of(number: u64, block: BadBlock) -> Line
    ensures { result.items ≡ bad_line number block }
{
    let mut line = Line::new();
    add(&mut line, b"bad ");
    add_number(&mut line, number);
    add(&mut line, b" ");
    add_number(&mut line, u64::from(block.k));
    add(&mut line, b" ");
    add_why(&mut line, block.why);
    add(&mut line, b"\n");
    line
}

fn print_blocks<O: Sink>(out: &mut O, number: u64, blocks: &[BadBlock]) -> Result<(), Failed>
    ensures { Wrote O.taken O.faults (bad_lines number blocks.now) out.old out.new result }
{
    for block in blocks {
        write_all(out, line_of(number, *block).as_slice())?;
    }
    Ok(())
}

fn print_bad<O: Sink>(out: &mut O, number: u64, blocks: &[BadBlock]) -> Result<(), Failed>
    ensures { Wrote O.taken O.faults (op_line number (codes "bad " ++ decimal (length blocks.now)) ++ bad_lines number blocks.now) out.old out.new result }
{
    let front = bad_front(number, blocks.len() as u64);
    write_all(out, front.as_slice())?;
    print_blocks(out, number, blocks)
}

fn print_shown<O: Sink>(out: &mut O, number: u64, bytes: &[u8]) -> Result<(), Failed>
    ensures { Wrote O.taken O.faults (op_line number (encode_lower bytes.now)) out.old out.new result }
{
    let front = op_front(number);
    write_all(out, front.as_slice())?;
    write_hex(out, bytes)?;
    write_all(out, b"\n")
}

/// The lines of the op of this number.
fn print_reply<O: Sink>(out: &mut O, number: u64, reply: &Reply) -> Result<(), Failed>
    ensures { Wrote O.taken O.faults (lines_of number reply.now) out.old out.new result }
{
    match reply {
        Reply::Silent => Ok(()),
        Reply::Whole => write_all(out, plain_line(number, b"whole").as_slice()),
        Reply::Bad(blocks) => print_bad(out, number, blocks.as_slice()),
        Reply::Shown(bytes) => print_shown(out, number, bytes.as_slice()),
        Reply::Medium => write_all(out, plain_line(number, b"medium").as_slice()),
    }
}

fn write_report<O: Sink>(out: &mut O, replies: &[Reply]) -> Result<(), Failed>
    ensures { Wrote O.taken O.faults (report replies.now) out.old out.new result }
{
    write_all(out, b"dix report 1\n")?;
    for (i, reply) in replies.iter().enumerate() {
        print_reply(out, i as u64 + 1, reply)?;
    }
    Ok(())
}

/// Writes the report of these replies, those of the ops of a script in order: the line
/// `dix report 1`, and then the lines of each op, whose number counts from 1. Of a `Bad` reply
/// each block has a line of its own with its place in the request, from 0, and why it failed. The
/// sink passes on all that it holds.
///
/// `Failed` comes only where the sink's count of faults rose; then a prefix of the report was
/// written. It takes no memory.
pub fn print_report<O: Sink>(out: &mut O, replies: &[Reply]) -> Result<(), Failed>
    ensures wrote { Wrote O.taken O.faults (report replies.now) out.old out.new result }
    ensures handed { OnOk result (O.passed out.new ≡ O.taken out.new) }
{
    write_report(out, replies)?;
    out.flush()
}
