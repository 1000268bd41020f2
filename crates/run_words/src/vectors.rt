//! Lists of commands in words.

ghost use Rattle.std.specs.Prelude.{◌≡◌, ◌≤◌, ◌++◌, ◌^◌, IfOk, OnOk, codes, decimal, length};
ghost use Rattle.run_words.specs.Commands.{cdb_words};
ghost use Rattle.run_words.specs.Vectors.{vector_words, vectors_text};

use crate::command::command_words;
use cdb_codec::Cdb;
use report_text::{Line, add, add_number};
use std::alloc::{AllocError, Global};
use vector_lines::VectorLine;

/// Puts a command descriptor block in words, or its digits where it is that of no command, behind the text.
fn add_cdb(alloc: Global, out: &mut Vec<u8>, cdb: &[u8]) -> Result<(), AllocError>
    ensures { OnOk result (out.new.items ≡ out.old.items ++ cdb_words cdb.now) }
{
    match Cdb::decode(cdb) {
        Ok(command) => out.extend_from_slice(command_words(&command).as_slice()),
        Err(_) => {
            let digits = hex::encode(alloc, cdb)?;
            out.extend_from_slice(digits.as_bytes())
        }
    }
}

/// The number of a line and its device.
fn front_of(number: u32, dev: u32) -> Line
    ensures { result.items ≡ codes "line " ++ (decimal number ++ (codes " dev " ++ (decimal dev ++ codes " "))) }
{
    let mut line = Line::new();
    add(&mut line, b"line ");
    add_number(&mut line, u64::from(number));
    add(&mut line, b" dev ");
    add_number(&mut line, u64::from(dev));
    add(&mut line, b" ");
    line
}

/// Puts the line of a command behind the text.
fn add_vector(alloc: Global, out: &mut Vec<u8>, line: &VectorLine) -> Result<(), AllocError>
    ensures { OnOk result (out.new.items ≡ out.old.items ++ vector_words line.now) }
{
    out.extend_from_slice(front_of(line.number, line.dev).as_slice())?;
    add_cdb(alloc, out, line.cdb.as_slice())?;
    out.extend_from_slice(b"\n")
}

fn count_of(commands: usize) -> Line
    ensures { result.items ≡ codes "right vectors " ++ (decimal commands ++ codes "\n") }
{
    let mut line = Line::new();
    add(&mut line, b"right vectors ");
    add_number(&mut line, commands as u64);
    add(&mut line, b"\n");
    line
}

/// What is said of a list of commands without a fault: how many there are, and of each one the number of its line,
/// its device and its command block in words.
pub fn vectors_text(alloc: Global, lines: &[VectorLine]) -> Result<Vec<u8>, AllocError>
    ensures { IfOk result (λ v. v.items ≡ vectors_text lines.now) }
{
    let mut out = Vec::new(alloc);
    out.extend_from_slice(count_of(lines.len()).as_slice())?;
    for line in lines {
        add_vector(alloc, &mut out, line)?;
    }
    Ok(out)
}
