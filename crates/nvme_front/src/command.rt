//! What an NVM command says.

ghost use Rattle.std.specs.Prelude.{◌≡◌, ◌≤◌};
ghost use Rattle.nvme_front.specs.Commands.{command_in, eight_at, four_at, is_write, two_at};

/// The fields of an NVM read or write command that are looked at (NVM Command Set, Read command and
/// Write command). Numbers in the 64 bytes are little-endian.
#[derive(Clone, Copy, Debug, PartialEq, Eq)]
pub struct NvmCommand {
    /// The opcode, byte 0: 01h is Write, 02h is Read.
    pub opcode: u8,
    /// Whether a bit is set that is to be 0: one of the fuse bits, which are bits 1 and 0 of byte 1,
    /// or one of the bits 25 to 16 of dword 12.
    pub reserved: bool,
    /// The namespace, bytes 4 to 7: the number of a device, plus 1.
    pub nsid: u32,
    /// The LBA of the first block, bytes 40 to 47.
    pub first: u64,
    /// The number of blocks, 1 to 65,536: bits 15 to 0 of dword 12, which has it less 1.
    pub count: u32,
    /// PRACT, bit 29 of dword 12: the tuples are made for a write and dropped from a read.
    pub pract: bool,
    /// PRCHK, bits 28 to 26 of dword 12: 4 asks for the guard, 2 for the application tag, 1 for the
    /// reference tag.
    pub prchk: u8,
    /// The initial reference tag, bytes 56 to 59.
    pub rtag: u32,
    /// The application tag, bytes 60 and 61.
    pub app: u16,
    /// The mask of the application tag, bytes 62 and 63.
    pub mask: u16,
}

fn two_at(bytes: &[u8; 64], at: usize) -> u16
    requires { at ≤ 62 }
    ensures { result ≡ two_at bytes.now at }
{
    u16::from_le_bytes([bytes[at], bytes[at + 1]])
}

fn four_at(bytes: &[u8; 64], at: usize) -> u32
    requires { at ≤ 60 }
    ensures { result ≡ four_at bytes.now at }
{
    u32::from_le_bytes([bytes[at], bytes[at + 1], bytes[at + 2], bytes[at + 3]])
}

fn eight_at(bytes: &[u8; 64], at: usize) -> u64
    requires { at ≤ 56 }
    ensures { result ≡ eight_at bytes.now at }
{
    let [b0, b1, b2, b3] = [bytes[at], bytes[at + 1], bytes[at + 2], bytes[at + 3]];
    let [b4, b5, b6, b7] = [bytes[at + 4], bytes[at + 5], bytes[at + 6], bytes[at + 7]];
    u64::from_le_bytes([b0, b1, b2, b3, b4, b5, b6, b7])
}

impl NvmCommand {
    /// The command of these 64 bytes.
    pub fn of(sqe: &[u8; 64]) -> NvmCommand
        ensures { result ≡ command_in sqe.now }
    {
        let flags = sqe[51];
        NvmCommand {
            opcode: sqe[0],
            reserved: sqe[1] % 4 != 0 || sqe[50] != 0 || flags % 4 != 0,
            nsid: four_at(sqe, 4),
            first: eight_at(sqe, 40),
            count: two_at(sqe, 48) as u32 + 1,
            pract: flags / 32 % 2 == 1,
            prchk: flags / 4 % 8,
            rtag: four_at(sqe, 56),
            app: two_at(sqe, 60),
            mask: two_at(sqe, 62),
        }
    }

    /// Whether it is a write.
    pub fn is_write(&self) -> bool
        ensures { result ≡ is_write self.now }
    {
        self.opcode == 1
    }
}
