//! Writing texts whole.

ghost use Rattle.std.specs.Prelude.{OnOk, ◌≡◌};
ghost use Rattle.hex.specs.Hex.{encode_lower};
ghost use Rattle.report_text.specs.Writing.{Wrote};

use crate::line::{Line, add_hex};
use dix_base::{Failed, Sink};

/// Gives the sink the whole text, or a prefix of it where the sink fails.
pub fn write_all<O: Sink>(out: &mut O, text: &[u8]) -> Result<(), Failed>
    ensures { Wrote O.taken O.faults text.now out.old out.new result }
{
    let mut rest = text;
    while rest.len() > 0 {
        let n = match out.put(rest) {
            Ok(n) => n,
            Err(Failed) => return Err(Failed),
        };
        let (_, more) = rest.split_at(n);
        rest = more;
    }
    Ok(())
}

/// Writes the whole text, or a prefix of it where the sink fails. The sink passes on all that it
/// holds.
pub fn write_out<O: Sink>(out: &mut O, text: &[u8]) -> Result<(), Failed>
    ensures wrote { Wrote O.taken O.faults text.now out.old out.new result }
    ensures handed { OnOk result (O.passed out.new ≡ O.taken out.new) }
{
    write_all(out, text)?;
    out.flush()
}

/// Writes the bytes as hexadecimal digits in lower case.
pub fn write_hex<O: Sink>(out: &mut O, bytes: &[u8]) -> Result<(), Failed>
    ensures { Wrote O.taken O.faults (encode_lower bytes.now) out.old out.new result }
{
    let mut rest = bytes;
    while rest.len() > 0 {
        let (part, more) = rest.split_at(rest.len().min(64));
        let mut digits = Line::new();
        add_hex(&mut digits, part);
        write_all(out, digits.as_slice())?;
        rest = more;
    }
    Ok(())
}
