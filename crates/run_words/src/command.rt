//! Commands in words.

ghost use Rattle.std.specs.Prelude.{◌≡◌, ◌+◌, ◌≤◌, ◌++◌, length};
ghost use Rattle.report_text.specs.Writing.{Wrote};
ghost use Rattle.cdb_codec.specs.declared.command.Cdb.{Cdb};
ghost use Rattle.run_words.specs.Commands.{cdb_words, command_words, rw_words, tag_words};

use cdb_codec::{Cdb, Rw};
use dix_base::{Failed, Sink};
use report_text::{Line, add, add_hex, add_number, write_all, write_hex};

/// The fields of a read, write or verify behind its name.
fn rw_line(name: &[u8], c: &Rw) -> Line
    requires { length name.now ≤ 16 }
    ensures items { result.items ≡ rw_words name.now c.now }
    ensures bound { length result.items ≤ 160 }
{
    let mut line = Line::new();
    add(&mut line, name);
    add(&mut line, b" at ");
    add_number(&mut line, c.lba);
    add(&mut line, b" of ");
    add_number(&mut line, u64::from(c.n));
    add(&mut line, b" under ");
    add_number(&mut line, u64::from(c.protect));
    line
}

/// The same with the expected tags of a form of 32 bytes.
fn tagged_line(name: &[u8], c: &Rw) -> Line
    requires { length name.now ≤ 16 }
    ensures { result.items ≡ rw_words name.now c.now ++ tag_words c.now }
{
    let mut line = rw_line(name, c);
    add(&mut line, b" tag ");
    add_hex(&mut line, &c.rtag.to_be_bytes());
    add(&mut line, b" app ");
    add_hex(&mut line, &c.app.to_be_bytes());
    add(&mut line, b" mask ");
    add_hex(&mut line, &c.mask.to_be_bytes());
    line
}

fn capacity_line(alloc_len: u32) -> Line
    ensures { result.items ≡ command_words (Cdb.ReadCapacity16 alloc_len) }
{
    let mut line = Line::new();
    add(&mut line, b"READ CAPACITY(16) of ");
    add_number(&mut line, u64::from(alloc_len));
    line
}

/// A command in words.
pub(crate) fn command_words(command: &Cdb) -> Line
    ensures { result.items ≡ command_words command.now }
{
    match command {
        Cdb::Read10(c) => rw_line(b"READ(10)", c),
        Cdb::Write10(c) => rw_line(b"WRITE(10)", c),
        Cdb::Verify10(c) => rw_line(b"VERIFY(10)", c),
        Cdb::Read16(c) => rw_line(b"READ(16)", c),
        Cdb::Write16(c) => rw_line(b"WRITE(16)", c),
        Cdb::Verify16(c) => rw_line(b"VERIFY(16)", c),
        Cdb::Read32(c) => tagged_line(b"READ(32)", c),
        Cdb::Write32(c) => tagged_line(b"WRITE(32)", c),
        Cdb::ReadCapacity16 { alloc_len } => capacity_line(*alloc_len),
    }
}

/// Writes a command descriptor block in words, or its digits where it is that of no command.
pub(crate) fn print_cdb<O: Sink>(out: &mut O, cdb: &[u8]) -> Result<(), Failed>
    ensures { Wrote O.taken O.faults (cdb_words cdb.now) out.old out.new result }
{
    match Cdb::decode(cdb) {
        Ok(command) => write_all(out, command_words(&command).as_slice()),
        Err(_) => write_hex(out, cdb),
    }
}
