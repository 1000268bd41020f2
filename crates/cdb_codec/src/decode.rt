//! The command of a list of bytes.

ghost use Rattle.std.specs.Prelude.{◌≡◌, ◌+◌, ◌≤◌, IfOk, Ok, length, true};
ghost use Rattle.cdb_codec.specs.Forms.{Fits, FitsTen, FitsSixteen, FitsThirtyTwo, form, is_protect};
ghost use Rattle.cdb_codec.specs.Decoded.{decoded, eight_at, four_at, is_written, of_service, of_variable, protect_of, sixteen_at, ten_at, thirty_two_at, told, two_at};
ghost use Rattle.cdb_codec.specs.declared.command.Cdb.{Cdb};

use crate::{Cdb, CdbFault, Rw};

fn u16_at(bytes: &[u8], at: usize) -> u16
    requires { at + 2 ≤ length bytes.now }
    ensures { result ≡ two_at bytes.now at }
{
    u16::from_be_bytes([bytes[at], bytes[at + 1]])
}

fn u32_at(bytes: &[u8], at: usize) -> u32
    requires { at + 4 ≤ length bytes.now }
    ensures { result ≡ four_at bytes.now at }
{
    u32::from_be_bytes([bytes[at], bytes[at + 1], bytes[at + 2], bytes[at + 3]])
}

fn u64_at(bytes: &[u8], at: usize) -> u64
    requires { at + 8 ≤ length bytes.now }
    ensures { result ≡ eight_at bytes.now at }
{
    let [a0, a1, a2, a3] = [bytes[at], bytes[at + 1], bytes[at + 2], bytes[at + 3]];
    let [a4, a5, a6, a7] = [bytes[at + 4], bytes[at + 5], bytes[at + 6], bytes[at + 7]];
    u64::from_be_bytes([a0, a1, a2, a3, a4, a5, a6, a7])
}

// Each of the next takes the fields from their places in one form, whatever the other bits are.

fn of_ten(bytes: &[u8]) -> Rw
    requires { length bytes.now ≡ 10 }
    ensures value { result ≡ ten_at bytes.now }
    ensures fits { is_protect result.protect ≡ true → FitsTen result }
{
    Rw {
        protect: bytes[1] >> 5,
        lba: u64::from(u32_at(bytes, 2)),
        n: u32::from(u16_at(bytes, 7)),
        rtag: 0,
        app: 0,
        mask: 0,
    }
}

fn of_sixteen(bytes: &[u8]) -> Rw
    requires { length bytes.now ≡ 16 }
    ensures value { result ≡ sixteen_at bytes.now }
    ensures fits { is_protect result.protect ≡ true → FitsSixteen result }
{
    Rw {
        protect: bytes[1] >> 5,
        lba: u64_at(bytes, 2),
        n: u32_at(bytes, 10),
        rtag: 0,
        app: 0,
        mask: 0,
    }
}

fn of_thirty_two(bytes: &[u8]) -> Rw
    requires { length bytes.now ≡ 32 }
    ensures value { result ≡ thirty_two_at bytes.now }
    ensures fits { is_protect result.protect ≡ true → FitsThirtyTwo result }
{
    Rw {
        protect: bytes[10] >> 5,
        lba: u64_at(bytes, 12),
        n: u32_at(bytes, 28),
        rtag: u32_at(bytes, 20),
        app: u16_at(bytes, 24),
        mask: u16_at(bytes, 26),
    }
}

fn of_variable(bytes: &[u8]) -> Result<Cdb, CdbFault>
    requires { length bytes.now ≡ 32 }
    ensures value { result ≡ of_variable bytes.now }
    ensures fits { IfOk result (λ c. is_protect (protect_of c) ≡ true → Fits c) }
{
    match (bytes[8], bytes[9]) {
        (0x00, 0x09) => Ok(Cdb::Read32(of_thirty_two(bytes))),
        (0x00, 0x0B) => Ok(Cdb::Write32(of_thirty_two(bytes))),
        _ => Err(CdbFault::Opcode),
    }
}

fn of_service(bytes: &[u8]) -> Result<Cdb, CdbFault>
    requires { length bytes.now ≡ 16 }
    ensures value { result ≡ of_service bytes.now }
    ensures fits { IfOk result (λ c. is_protect (protect_of c) ≡ true → Fits c) }
{
    match bytes[1] & 0x1F {
        0x10 => Ok(Cdb::ReadCapacity16 {
            alloc_len: u32_at(bytes, 10),
        }),
        _ => Err(CdbFault::Opcode),
    }
}

fn told(bytes: &[u8]) -> Result<Cdb, CdbFault>
    ensures value { result ≡ told bytes.now }
    ensures fits { IfOk result (λ c. is_protect (protect_of c) ≡ true → Fits c) }
{
    let Some(op) = bytes.first() else {
        return Err(CdbFault::Length);
    };
    match (*op, bytes.len()) {
        (0x28, 10) => Ok(Cdb::Read10(of_ten(bytes))),
        (0x2A, 10) => Ok(Cdb::Write10(of_ten(bytes))),
        (0x2F, 10) => Ok(Cdb::Verify10(of_ten(bytes))),
        (0x88, 16) => Ok(Cdb::Read16(of_sixteen(bytes))),
        (0x8A, 16) => Ok(Cdb::Write16(of_sixteen(bytes))),
        (0x8F, 16) => Ok(Cdb::Verify16(of_sixteen(bytes))),
        (0x7F, 32) => of_variable(bytes),
        (0x9E, 16) => of_service(bytes),
        (0x28 | 0x2A | 0x2F | 0x88 | 0x8A | 0x8F | 0x7F | 0x9E, _) => Err(CdbFault::Length),
        _ => Err(CdbFault::Opcode),
    }
}

impl Cdb {
    fn has_served_protect(&self) -> bool
        ensures { result ≡ is_protect (protect_of self.now) }
    {
        match self {
            Cdb::Read10(c) | Cdb::Write10(c) | Cdb::Verify10(c) => is_served(c.protect),
            Cdb::Read16(c) | Cdb::Write16(c) | Cdb::Verify16(c) => is_served(c.protect),
            Cdb::Read32(c) | Cdb::Write32(c) => is_served(c.protect),
            Cdb::ReadCapacity16 { .. } => true,
        }
    }

    /// The command that is written as these bytes, else the first fault: that there are no bytes,
    /// an operation code that isn't served, another number of bytes than it asks for, a service
    /// action that isn't served, and last a field with a value that isn't served or a bit set
    /// outside the fields.
    ///
    /// It undoes `encode`, and `encode` undoes it.
    pub fn decode(bytes: &[u8]) -> Result<Cdb, CdbFault>
        ensures value { result ≡ decoded bytes.now }
        ensures found { IfOk result (λ c. Fits c × (bytes.now ≡ form c)) }
        ensures only { (c : Cdb) → Fits c → bytes.now ≡ form c → result ≡ Ok c }
    {
        let cdb = told(bytes)?;
        if !cdb.has_served_protect() || cdb.encode().as_slice() != bytes {
            return Err(CdbFault::Field);
        }
        Ok(cdb)
    }
}

fn is_served(protect: u8) -> bool
    ensures { result ≡ is_protect protect }
{
    matches!(protect, 0 | 1 | 3 | 4)
}
