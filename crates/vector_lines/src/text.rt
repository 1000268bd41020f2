//! The lines that tell what came of commands.

ghost use Rattle.std.specs.Prelude.{◌≡◌, ◌+◌, ◌++◌, true, codes, decimal};
ghost use Rattle.hex.specs.Hex.{encode_lower};
ghost use Rattle.report_text.specs.Writing.{Wrote};
ghost use Rattle.rig_api.specs.Log.{has_key};
ghost use Rattle.vector_lines.specs.Printed.{first_line, head_text, in_of, is_write, out_of, outcome_text, tail_text, vector_line, word_text};

use cdb_codec::Cdb;
use dix_base::{Failed, Sink};
use report_text::{Line, add, add_hex, add_number, write_all, write_hex};
use rig_api::{Outcome, Record, Request, request_of};

/// Whether the command block is that of a write.
fn is_write(cdb: &[u8]) -> bool
    ensures { result ≡ is_write cdb.now }
{
    match Cdb::decode(cdb) {
        Ok(command) => match request_of(command) {
            Request::Write(_) => true,
            Request::Read(_) | Request::Verify(_) | Request::ReadCapacity(_) => false,
        },
        Err(_) => false,
    }
}

/// What a command with these moved bytes sent to the device: those of a write.
pub fn out_of<'a>(cdb: &[u8], moved: &'a [u8]) -> &'a [u8]
    ensures { result.now ≡ out_of cdb.now moved.now }
{
    if is_write(cdb) { moved } else { &[] }
}

/// What came back from the device: the moved bytes of a command that is no write.
pub fn in_of<'a>(cdb: &[u8], moved: &'a [u8]) -> &'a [u8]
    ensures { result.now ≡ in_of cdb.now moved.now }
{
    if is_write(cdb) { &[] } else { moved }
}

/// Writes a space and the digits of the bytes.
fn write_digits<O: Sink>(out: &mut O, bytes: &[u8]) -> Result<(), Failed>
    ensures { Wrote O.taken O.faults (codes " " ++ encode_lower bytes.now) out.old out.new result }
{
    write_all(out, b" ")?;
    write_hex(out, bytes)
}

/// Writes a space and the digits of the bytes, or a hyphen where there are none.
fn write_word<O: Sink>(out: &mut O, bytes: &[u8]) -> Result<(), Failed>
    ensures { Wrote O.taken O.faults (word_text bytes.now) out.old out.new result }
{
    match bytes {
        [] => write_all(out, b" -"),
        [_, ..] => write_digits(out, bytes),
    }
}

fn front_of(dev: u32) -> Line
    ensures { result.items ≡ codes "v " ++ decimal dev }
{
    let mut line = Line::new();
    add(&mut line, b"v ");
    add_number(&mut line, u64::from(dev));
    line
}

fn outcome_of(outcome: Outcome) -> Line
    requires { has_key outcome.sense ≡ true }
    ensures { result.items ≡ outcome_text outcome }
{
    let mut line = Line::new();
    add(&mut line, b" ");
    add_number(&mut line, u64::from(outcome.done));
    add(&mut line, b" ");
    match outcome.sense {
        Some(sense) => add_hex(&mut line, sense.encode().as_slice()),
        None => add(&mut line, b"-"),
    }
    line
}

/// Writes the device and the command block.
fn write_head<O: Sink>(out: &mut O, what: &Record) -> Result<(), Failed>
    ensures { Wrote O.taken O.faults (head_text what.now) out.old out.new result }
{
    write_all(out, front_of(what.dev).as_slice())?;
    write_word(out, what.cdb.as_slice())
}

/// Writes the outcome, what came back, and the end of the line.
fn write_tail<O: Sink>(out: &mut O, outcome: Outcome, came: &[u8]) -> Result<(), Failed>
    requires { has_key outcome.sense ≡ true }
    ensures { Wrote O.taken O.faults (tail_text outcome came.now) out.old out.new result }
{
    write_all(out, outcome_of(outcome).as_slice())?;
    write_word(out, came)?;
    write_all(out, b"\n")
}

/// Writes the line of a command: its device and command block, what was sent to the device, how far it came
/// with which sense, and what came back. `Failed` comes only where the sink's count of faults rose; then a
/// prefix of the line was written. It takes no memory.
pub fn write_vector<O: Sink>(
    out: &mut O,
    what: &Record,
    sent: &[u8],
    came: &[u8],
) -> Result<(), Failed>
    requires { has_key what.now.outcome.sense ≡ true }
    ensures { Wrote O.taken O.faults (vector_line what.now sent.now came.now) out.old out.new result }
{
    write_head(out, what)?;
    write_word(out, sent)?;
    write_tail(out, what.outcome, came)
}

/// Writes the first line.
pub fn write_first<O: Sink>(out: &mut O) -> Result<(), Failed>
    ensures { Wrote O.taken O.faults first_line out.old out.new result }
{
    write_all(out, b"dix vectors 1\n")
}
