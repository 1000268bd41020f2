//! The commands, and what can be wrong with the bytes of one.

ghost use Rattle.std.specs.Prelude.{◌≡◌};
ghost use Rattle.cdb_codec.specs.Faults.{fault_name, fault_number};

/// The fields of a command that reads, writes or verifies blocks.
///
/// The forms of 10 and 16 bytes have no expected tags: there the last three fields are 0.
#[derive(Clone, Copy, Debug, PartialEq, Eq)]
pub struct Rw {
    /// RDPROTECT, WRPROTECT or VRPROTECT: whether protection information moves, and which of its
    /// checks are asked for.
    pub protect: u8,
    /// LOGICAL BLOCK ADDRESS of the first block.
    pub lba: u64,
    /// TRANSFER LENGTH or VERIFICATION LENGTH, in blocks. 0 stands for none.
    pub n: u32,
    /// EXPECTED INITIAL LOGICAL BLOCK REFERENCE TAG.
    pub rtag: u32,
    /// EXPECTED LOGICAL BLOCK APPLICATION TAG.
    pub app: u16,
    /// LOGICAL BLOCK APPLICATION TAG MASK: the bits of the application tag that are checked.
    pub mask: u16,
}

/// A command to a unit.
#[derive(Clone, Copy, Debug, PartialEq, Eq)]
pub enum Cdb {
    /// READ(10), operation code 28h (SBC-3, 5.11).
    Read10(Rw),
    /// WRITE(10), operation code 2Ah (SBC-3, 5.32).
    Write10(Rw),
    /// VERIFY(10), operation code 2Fh (SBC-3, 5.28).
    Verify10(Rw),
    /// READ(16), operation code 88h (SBC-3, 5.13).
    Read16(Rw),
    /// WRITE(16), operation code 8Ah (SBC-3, 5.34).
    Write16(Rw),
    /// VERIFY(16), operation code 8Fh (SBC-3, 5.30).
    Verify16(Rw),
    /// READ(32), operation code 7Fh with service action 0009h (SBC-3, 5.14).
    Read32(Rw),
    /// WRITE(32), operation code 7Fh with service action 000Bh (SBC-3, 5.35).
    Write32(Rw),
    /// READ CAPACITY(16), operation code 9Eh with service action 10h (SBC-3, 5.16).
    ReadCapacity16 {
        /// ALLOCATION LENGTH: the most bytes that are to be sent.
        alloc_len: u32,
    },
}

/// Why a list of bytes isn't a command.
#[derive(Clone, Copy, Debug, PartialEq, Eq)]
pub enum CdbFault {
    /// The operation code, or the service action where it has some, is none that is served.
    Opcode,
    /// A field has a value that isn't served, or a bit outside the fields is set.
    Field,
    /// There are no bytes, or not as many as the operation code asks for.
    Length,
}

impl CdbFault {
    /// 1 for the operation code, 2 for a field, 3 for the length.
    pub fn number(self) -> u8
        ensures { result ≡ fault_number self }
    {
        match self {
            CdbFault::Opcode => 1,
            CdbFault::Field => 2,
            CdbFault::Length => 3,
        }
    }

    /// The name of the fault.
    pub fn name(self) -> &'static str
        ensures { result.now ≡ fault_name self }
    {
        match self {
            CdbFault::Opcode => "Opcode",
            CdbFault::Field => "Field",
            CdbFault::Length => "Length",
        }
    }
}
