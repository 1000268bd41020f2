//! Where blocks and their tuples lie.

ghost use Rattle.std.specs.Prelude.{◌≡◌, ◌/◌, IfErr, IfOk};
ghost use Rattle.pi_blocks.specs.Layouts.{AreBlocks, Refused, covered_of, is_good, kind_of, stride_of, type_of};
ghost use Rattle.pi_blocks.specs.declared.layout.Unchecked.{Unchecked};

use pi_guard::GuardKind;
use pi_tuple::{PiType, TUPLE};

/// The layout of a block: its data, and its metadata with the eight bytes of its tuple. The guard is that of the data
/// and of the metadata before the tuple, so both places that a tuple may have in NVMe metadata are served, and the
/// 512 + 8 bytes of SCSI.
#[repr(C)]
#[derive(Clone, Copy, Debug)]
pub struct Layout {
    /// The bytes of data, as 512 or 4096; 0 where only metadata is given.
    pub data_size: u32,
    /// The bytes of metadata: at least `tuple_at` and eight. With those of the data they are fewer than 2^32.
    pub meta_size: u32,
    /// The bytes of metadata before the tuple.
    pub tuple_at: u32,
    /// The protection type, 1 to 3.
    pub pi_type: u32,
    /// The guard: 0 for the CRC, 1 for the Internet checksum.
    pub guard: u32,
}

/// Why a call does nothing.
#[derive(Clone, Copy, Debug, PartialEq, Eq)]
pub enum Refusal {
    /// The layout has no room for a tuple, is too large, or has another type or guard.
    BadLayout,
    /// The bytes are no whole blocks, or the data and the metadata are of other counts.
    BadLength,
}

/// Why blocks aren't checked.
#[derive(Clone, Copy, Debug, PartialEq, Eq)]
pub enum Unchecked {
    /// They are no blocks.
    Blocks(Refusal),
    /// The flags name no check, or something else than checks.
    Flags,
}

impl From<Refusal> for Unchecked {
    ghost from_gives = { λ why unchecked. unchecked ≡ Unchecked.Blocks why };

    fn from(why: Refusal) -> Unchecked {
        Unchecked::Blocks(why)
    }
}

/// The kind of guard of a number.
pub(crate) fn kind_of(guard: u32) -> GuardKind
    ensures { result ≡ kind_of guard }
{
    match guard {
        0 => GuardKind::Crc,
        _ => GuardKind::Ip,
    }
}

impl Layout {
    /// Whether a tuple fits its metadata, a block's size fits 32 bits, and type and guard are some.
    pub fn is_good(self) -> bool
        ensures { result ≡ is_good self }
    {
        let tuple_end = u64::from(self.tuple_at) + TUPLE as u64;
        let size = u64::from(self.data_size) + u64::from(self.meta_size);
        tuple_end <= u64::from(self.meta_size)
            && size < 0x1_0000_0000
            && self.pi_type >= 1
            && self.pi_type <= 3
            && self.guard <= 1
    }

    /// The protection type.
    pub(crate) fn ty(self) -> PiType
        ensures { result ≡ type_of self.pi_type }
    {
        match self.pi_type {
            1 => PiType::One,
            2 => PiType::Two,
            3 => PiType::Three,
            _ => PiType::Zero,
        }
    }

    /// The kind of guard.
    pub(crate) fn kind(self) -> GuardKind
        ensures { result ≡ kind_of self.guard }
    {
        kind_of(self.guard)
    }

    /// The bytes of a block with its metadata behind its data.
    pub(crate) fn stride(self) -> usize
        ensures { result ≡ stride_of self }
    {
        self.data_size as usize + self.meta_size as usize
    }

    /// The bytes of such a block before its tuple.
    pub(crate) fn covered(self) -> usize
        ensures { result ≡ covered_of self }
    {
        self.data_size as usize + self.tuple_at as usize
    }

    /// How many blocks with their metadata behind them so many bytes are.
    pub(crate) fn count(self, len: usize) -> Result<usize, Refusal>
        ensures count { IfOk result (λ n. AreBlocks self len × (n ≡ len / stride_of self)) }
        ensures refused { IfErr result (λ e. Refused self len e) }
    {
        if !self.is_good() {
            return Err(Refusal::BadLayout);
        }
        let stride = self.stride();
        if len % stride != 0 {
            return Err(Refusal::BadLength);
        }
        Ok(len / stride)
    }
}
