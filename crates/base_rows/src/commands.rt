//! Command blocks, from their bytes and to them, and which is chosen.

ghost use Rattle.std.specs.Prelude.{◌≡◌, true, IfOk, Ok};
ghost use Rattle.cdb_codec.specs.Forms.{Fits, FitsSixteen, FitsTen, FitsThirtyTwo, is_protect};

use crate::names::{add, none, out_of_range, short, tiny, type_of};
use arrayvec::ArrayVec;
use cdb_codec::{Cdb, CdbFault, Dir2, Rw, choose};
use std::alloc::{AllocError, Global};
use test_table::{bytes_of, cut, hex_of, number, small};

/// What a caller can conclude: each call undoes the other.
fn there_and_back(c: &Cdb) -> Result<Cdb, CdbFault>
    requires { Fits c.now }
    ensures { result ≡ Ok c.now }
{
    Cdb::decode(c.encode().as_slice())
}

fn back_and_there(bytes: &[u8]) -> Result<ArrayVec<u8, 32>, CdbFault>
    ensures { IfOk result (λ b. b.items ≡ bytes.now) }
{
    Ok(Cdb::decode(bytes)?.encode())
}

fn is_protect(protect: u8) -> bool
    ensures { result ≡ is_protect protect }
{
    matches!(protect, 0 | 1 | 3 | 4)
}

fn fits_ten(c: Rw) -> bool
    ensures { result ≡ true → FitsTen c }
{
    is_protect(c.protect)
        && c.lba <= 0xFFFF_FFFF
        && c.n <= 0xFFFF
        && c.rtag == 0
        && c.app == 0
        && c.mask == 0
}

fn fits_sixteen(c: Rw) -> bool
    ensures { result ≡ true → FitsSixteen c }
{
    is_protect(c.protect) && c.rtag == 0 && c.app == 0 && c.mask == 0
}

fn fits_thirty_two(c: Rw) -> bool
    ensures { result ≡ true → FitsThirtyTwo c }
{
    is_protect(c.protect)
}

fn fits(c: Cdb) -> bool
    ensures { result ≡ true → Fits c }
{
    match c {
        Cdb::Read10(c) | Cdb::Write10(c) | Cdb::Verify10(c) => fits_ten(c),
        Cdb::Read16(c) | Cdb::Write16(c) | Cdb::Verify16(c) => fits_sixteen(c),
        Cdb::Read32(c) | Cdb::Write32(c) => fits_thirty_two(c),
        Cdb::ReadCapacity16 { .. } => true,
    }
}

/// The fields of six numbers.
fn fields_of(words: &str) -> Rw {
    let (protect, rest) = cut(words);
    let (lba, rest) = cut(rest);
    let (n, rest) = cut(rest);
    let (rtag, rest) = cut(rest);
    let (app, mask) = cut(rest);
    Rw {
        protect: tiny(protect),
        lba: number(lba),
        n: small(n),
        rtag: small(rtag),
        app: short(app),
        mask: short(mask),
    }
}

/// The command of a name and its fields.
fn command_of(words: &str) -> Cdb {
    let (name, rest) = cut(words);
    let fields = fields_of(rest);
    match name {
        "read10" => Cdb::Read10(fields),
        "write10" => Cdb::Write10(fields),
        "verify10" => Cdb::Verify10(fields),
        "read16" => Cdb::Read16(fields),
        "write16" => Cdb::Write16(fields),
        "verify16" => Cdb::Verify16(fields),
        "read32" => Cdb::Read32(fields),
        "write32" => Cdb::Write32(fields),
        _ => Cdb::ReadCapacity16 {
            alloc_len: small(rest),
        },
    }
}

fn fields_text(alloc: Global, name: &str, c: &Rw) -> Result<String, AllocError> {
    let Rw {
        protect,
        lba,
        n,
        rtag,
        app,
        mask,
    } = *c;
    format!(in alloc; "{name} {protect} {lba} {n} {rtag} {app} {mask}")
}

fn command_text(alloc: Global, command: &Cdb) -> Result<String, AllocError> {
    match command {
        Cdb::Read10(c) => fields_text(alloc, "read10", c),
        Cdb::Write10(c) => fields_text(alloc, "write10", c),
        Cdb::Verify10(c) => fields_text(alloc, "verify10", c),
        Cdb::Read16(c) => fields_text(alloc, "read16", c),
        Cdb::Write16(c) => fields_text(alloc, "write16", c),
        Cdb::Verify16(c) => fields_text(alloc, "verify16", c),
        Cdb::Read32(c) => fields_text(alloc, "read32", c),
        Cdb::Write32(c) => fields_text(alloc, "write32", c),
        Cdb::ReadCapacity16 { alloc_len } => format!(in alloc; "capacity {alloc_len}"),
    }
}

fn fault_text(alloc: Global, fault: CdbFault) -> Result<String, AllocError> {
    let (name, number) = (fault.name(), fault.number());
    format!(in alloc; "{name} {number}")
}

fn told(alloc: Global, read: Result<Cdb, CdbFault>) -> Result<String, AllocError> {
    match read {
        Ok(command) => command_text(alloc, &command),
        Err(fault) => fault_text(alloc, fault),
    }
}

fn written_again(alloc: Global, bytes: &[u8]) -> Result<String, AllocError> {
    match back_and_there(bytes) {
        Ok(written) => hex_of(alloc, written.as_slice()),
        Err(fault) => fault_text(alloc, fault),
    }
}

/// The bytes of a command, or the command of these bytes.
fn written(alloc: Global, call: &str, words: &str) -> Result<String, AllocError> {
    let command = command_of(words);
    if !fits(command) {
        return out_of_range(alloc);
    }
    if call == "bytes" {
        return hex_of(alloc, command.encode().as_slice());
    }
    told(alloc, there_and_back(&command))
}

/// The commands that read and write a range, by the unit's type and the six fields, of which the tag isn't used.
fn chosen(alloc: Global, words: &str) -> Result<String, AllocError> {
    let (kind, rest) = cut(words);
    let (ty, c) = (type_of(kind), fields_of(rest));
    if c.n == 0 || u64::from(c.n) > u64::MAX - c.lba {
        return out_of_range(alloc);
    }
    let mut text = String::new(alloc);
    for dir in [Dir2::In, Dir2::Out] {
        let command = choose(ty, dir, c.lba, c.n, c.protect, c.app, c.mask);
        add(&mut text, command_text(alloc, &command)?.as_str())?;
    }
    Ok(text)
}

pub(crate) fn answer(alloc: Global, words: &str) -> Result<String, AllocError> {
    let (call, rest) = cut(words);
    match call {
        "of" => told(alloc, Cdb::decode(&bytes_of(alloc, rest)?)),
        "again" => written_again(alloc, &bytes_of(alloc, rest)?),
        "bytes" | "back" => written(alloc, call, rest),
        "choose" => chosen(alloc, rest),
        _ => none(alloc),
    }
}
