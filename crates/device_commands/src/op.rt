//! Which commands there are, and the size and the fields of each.

ghost use Rattle.std.specs.Prelude.{◌≡◌, ◌≤◌, IfNone, IfOk, IfSome, length};
ghost use Rattle.device_commands.specs.Ops.{by_action, by_code, code_of, count_of, kind_of, number, op_in, service_in, size_of, variable_in, when_long};
ghost use Rattle.device_commands.specs.declared.op.Op.{Op as AnyOp};

use cdb_codec::CdbFault;

/// A command (SBC-3, 5.2 to 5.44).
#[derive(Clone, Copy, Debug, PartialEq, Eq)]
pub(crate) enum Op {
    Read10,
    Read12,
    Read16,
    Read32,
    Write10,
    Write12,
    Write16,
    Write32,
    WriteVerify10,
    WriteVerify12,
    WriteVerify16,
    WriteVerify32,
    Verify10,
    Verify12,
    Verify16,
    Verify32,
    WriteSame10,
    WriteSame16,
    WriteSame32,
    CompareWrite,
    ReadCapacity16,
}

/// How many bytes it has.
#[derive(Clone, Copy, Debug, PartialEq, Eq)]
pub(crate) enum Size {
    Ten,
    Twelve,
    Sixteen,
    ThirtyTwo,
}

/// What bits 4 to 0 of the byte of the protect field are.
#[derive(Clone, Copy, Debug, PartialEq, Eq)]
pub(crate) enum Kind {
    /// DPO, FUA, RARC, FUA_NV, and in 16 bytes the first bit of DLD.
    Reads,
    /// The same without RARC.
    Writes,
    /// DPO, FUA and FUA_NV.
    Swaps,
    /// DPO and BYTCHK.
    Verifies,
    /// ANCHOR, UNMAP and NDOB; in 10 bytes without NDOB.
    Repeats,
    /// The service action.
    Asks,
}

impl Size {
    pub(crate) fn count(self) -> usize
        ensures { result ≡ count_of self }
    {
        match self {
            Size::Ten => 10,
            Size::Twelve => 12,
            Size::Sixteen => 16,
            Size::ThirtyTwo => 32,
        }
    }
}

fn by_code(code: u8) -> Option<Op>
    ensures { result ≡ by_code code }
{
    match code {
        0x28 => Some(Op::Read10),
        0xA8 => Some(Op::Read12),
        0x88 => Some(Op::Read16),
        0x2A => Some(Op::Write10),
        0xAA => Some(Op::Write12),
        0x8A => Some(Op::Write16),
        0x2E => Some(Op::WriteVerify10),
        0xAE => Some(Op::WriteVerify12),
        0x8E => Some(Op::WriteVerify16),
        0x2F => Some(Op::Verify10),
        0xAF => Some(Op::Verify12),
        0x8F => Some(Op::Verify16),
        0x41 => Some(Op::WriteSame10),
        0x93 => Some(Op::WriteSame16),
        0x89 => Some(Op::CompareWrite),
        _ => None,
    }
}

fn by_action(action: u8) -> Option<Op>
    ensures { result ≡ by_action action }
{
    match action {
        0x09 => Some(Op::Read32),
        0x0A => Some(Op::Verify32),
        0x0B => Some(Op::Write32),
        0x0C => Some(Op::WriteVerify32),
        0x0D => Some(Op::WriteSame32),
        _ => None,
    }
}

fn when_long(op: Option<Op>, bytes: &[u8]) -> Result<Op, CdbFault>
    ensures value { result ≡ when_long op bytes.now }
    ensures long { IfOk result (λ o. count_of (size_of o) ≤ length bytes.now) }
{
    match op {
        None => Err(CdbFault::Opcode),
        Some(op) if op.size().count() <= bytes.len() => Ok(op),
        Some(_) => Err(CdbFault::Length),
    }
}

// Behind operation code 7Fh.
fn variable_in(bytes: &[u8]) -> Result<Op, CdbFault>
    ensures value { result ≡ variable_in bytes.now }
    ensures long { IfOk result (λ o. count_of (size_of o) ≤ length bytes.now) }
{
    if bytes.len() < 8 {
        return Err(CdbFault::Length);
    }
    if bytes[7] != 0x18 {
        return Err(CdbFault::Field);
    }
    if bytes.len() < 32 {
        return Err(CdbFault::Length);
    }
    if bytes[8] != 0 {
        return Err(CdbFault::Opcode);
    }
    when_long(by_action(bytes[9]), bytes)
}

// Behind 9Eh.
fn service_in(bytes: &[u8]) -> Result<Op, CdbFault>
    ensures value { result ≡ service_in bytes.now }
    ensures long { IfOk result (λ o. count_of (size_of o) ≤ length bytes.now) }
{
    if bytes.len() < 16 {
        return Err(CdbFault::Length);
    }
    if bytes[1] % 32 != 0x10 {
        return Err(CdbFault::Opcode);
    }
    Ok(Op::ReadCapacity16)
}

impl Op {
    /// The command that these bytes begin with and are enough for, or why there is none.
    pub(crate) fn of_bytes(bytes: &[u8]) -> Result<Op, CdbFault>
        ensures value { result ≡ op_in bytes.now }
        ensures long { IfOk result (λ o. count_of (size_of o) ≤ length bytes.now) }
    {
        let Some(code) = bytes.first() else {
            return Err(CdbFault::Length);
        };
        match *code {
            0x7F => variable_in(bytes),
            0x9E => service_in(bytes),
            code => when_long(by_code(code), bytes),
        }
    }

    /// The command of a number.
    pub(crate) fn of(code: u32) -> Option<Op>
        ensures found { IfSome result (λ o. code ≡ number o) }
        ensures only { IfNone result ((o : AnyOp) → ¬ (code ≡ number o)) }
    {
        match code {
            0x28 => Some(Op::Read10),
            0xA8 => Some(Op::Read12),
            0x88 => Some(Op::Read16),
            0x7F09 => Some(Op::Read32),
            0x2A => Some(Op::Write10),
            0xAA => Some(Op::Write12),
            0x8A => Some(Op::Write16),
            0x7F0B => Some(Op::Write32),
            0x2E => Some(Op::WriteVerify10),
            0xAE => Some(Op::WriteVerify12),
            0x8E => Some(Op::WriteVerify16),
            0x7F0C => Some(Op::WriteVerify32),
            0x2F => Some(Op::Verify10),
            0xAF => Some(Op::Verify12),
            0x8F => Some(Op::Verify16),
            0x7F0A => Some(Op::Verify32),
            0x41 => Some(Op::WriteSame10),
            0x93 => Some(Op::WriteSame16),
            0x7F0D => Some(Op::WriteSame32),
            0x89 => Some(Op::CompareWrite),
            0x9E10 => Some(Op::ReadCapacity16),
            _ => None,
        }
    }

    pub(crate) fn number(self) -> u32
        ensures { result ≡ number self }
    {
        match self {
            Op::Read10 => 0x28,
            Op::Read12 => 0xA8,
            Op::Read16 => 0x88,
            Op::Read32 => 0x7F09,
            Op::Write10 => 0x2A,
            Op::Write12 => 0xAA,
            Op::Write16 => 0x8A,
            Op::Write32 => 0x7F0B,
            Op::WriteVerify10 => 0x2E,
            Op::WriteVerify12 => 0xAE,
            Op::WriteVerify16 => 0x8E,
            Op::WriteVerify32 => 0x7F0C,
            Op::Verify10 => 0x2F,
            Op::Verify12 => 0xAF,
            Op::Verify16 => 0x8F,
            Op::Verify32 => 0x7F0A,
            Op::WriteSame10 => 0x41,
            Op::WriteSame16 => 0x93,
            Op::WriteSame32 => 0x7F0D,
            Op::CompareWrite => 0x89,
            Op::ReadCapacity16 => 0x9E10,
        }
    }

    /// The first byte; of commands of 32 bytes the service action's low byte.
    pub(crate) fn code(self) -> u8
        ensures { result ≡ code_of self }
    {
        match self {
            Op::Read10 => 0x28,
            Op::Read12 => 0xA8,
            Op::Read16 => 0x88,
            Op::Read32 => 0x09,
            Op::Write10 => 0x2A,
            Op::Write12 => 0xAA,
            Op::Write16 => 0x8A,
            Op::Write32 => 0x0B,
            Op::WriteVerify10 => 0x2E,
            Op::WriteVerify12 => 0xAE,
            Op::WriteVerify16 => 0x8E,
            Op::WriteVerify32 => 0x0C,
            Op::Verify10 => 0x2F,
            Op::Verify12 => 0xAF,
            Op::Verify16 => 0x8F,
            Op::Verify32 => 0x0A,
            Op::WriteSame10 => 0x41,
            Op::WriteSame16 => 0x93,
            Op::WriteSame32 => 0x0D,
            Op::CompareWrite => 0x89,
            Op::ReadCapacity16 => 0x9E,
        }
    }

    pub(crate) fn size(self) -> Size
        ensures { result ≡ size_of self }
    {
        match self {
            Op::Read10 | Op::Write10 | Op::WriteVerify10 | Op::Verify10 | Op::WriteSame10 =>
                Size::Ten,
            Op::Read12 | Op::Write12 | Op::WriteVerify12 | Op::Verify12 => Size::Twelve,
            Op::Read16 | Op::Write16 | Op::WriteVerify16 | Op::Verify16 => Size::Sixteen,
            Op::WriteSame16 | Op::CompareWrite | Op::ReadCapacity16 => Size::Sixteen,
            Op::Read32 | Op::Write32 | Op::WriteVerify32 | Op::Verify32 | Op::WriteSame32 =>
                Size::ThirtyTwo,
        }
    }

    pub(crate) fn kind(self) -> Kind
        ensures { result ≡ kind_of self }
    {
        match self {
            Op::Read10 | Op::Read12 | Op::Read16 | Op::Read32 => Kind::Reads,
            Op::Write10 | Op::Write12 | Op::Write16 | Op::Write32 => Kind::Writes,
            Op::WriteVerify10 | Op::WriteVerify12 | Op::WriteVerify16 | Op::WriteVerify32 =>
                Kind::Verifies,
            Op::Verify10 | Op::Verify12 | Op::Verify16 | Op::Verify32 => Kind::Verifies,
            Op::WriteSame10 | Op::WriteSame16 | Op::WriteSame32 => Kind::Repeats,
            Op::CompareWrite => Kind::Swaps,
            Op::ReadCapacity16 => Kind::Asks,
        }
    }
}
