//! Where blocks and their protection information lie.

ghost use Rattle.std.specs.Prelude.{◌≡◌, ◌/◌, true, IfErr, IfOk};
ghost use Rattle.wide_blocks.specs.Layouts.{AreWideBlocks, Refused, are_widths, covered_of, has_reference, info_at, is_good, reference_bits, stride_of};

/// The layout of a block: its data, and its metadata with the sixteen bytes of protection information.
#[repr(C)]
#[derive(Clone, Copy, Debug)]
pub struct NvmeLayout {
    /// The bytes of data, as 512 or 4096; 0 where only metadata is given.
    pub data_size: u32,
    /// The bytes of metadata, at least 16. With those of the data they are fewer than 2^32.
    pub meta_size: u32,
    /// Where the information stands: 0 for the first sixteen bytes of the metadata, whose guard is of the data alone, 1 for
    /// the last ones, whose guard is of the data and of the metadata before.
    pub at_end: u32,
    /// The bits of the guard: 32 for CRC-32C, 64 for the CRC of 64 bits of NVMe.
    pub guard: u32,
    /// The protection type, 1 to 3.
    pub pi_type: u32,
    /// The bits of the storage tag (STS): 16 to 64 of the 80 of storage and reference space beside a guard of 32 bits, 0
    /// to 48 of the 48 beside one of 64. The reference tag has the others.
    pub storage: u32,
}

/// Why a call does nothing.
#[derive(Clone, Copy, Debug, PartialEq, Eq)]
pub enum NvmeRefusal {
    /// The layout has no room for the information, is too large, or has another place, guard, type or storage tag.
    Layout,
    /// The bytes are no whole blocks, or those of data and of metadata are of other counts.
    Length,
    /// The flags name no check, or something else than checks; or the storage tag that is to be written has more bits
    /// than the layout's.
    Field,
}

// The bits of a guard and of a storage tag that stand beside one another.
fn are_widths(guard: u32, storage: u32) -> bool
    ensures { result ≡ are_widths guard storage }
{
    guard == 32 && 16 <= storage && storage <= 64 || guard == 64 && storage <= 48
}

impl NvmeLayout {
    /// Whether the information fits its metadata, a block's size fits 32 bits, and each number has a meaning.
    pub fn is_good(self) -> bool
        ensures { result ≡ is_good self }
    {
        let size = u64::from(self.data_size) + u64::from(self.meta_size);
        self.meta_size >= 16
            && size < 0x1_0000_0000
            && self.at_end <= 1
            && self.pi_type >= 1
            && self.pi_type <= 3
            && are_widths(self.guard, self.storage)
    }

    /// Whether the reference tag binds a block to an address: in types 1 and 2.
    pub(crate) fn has_reference(self) -> bool
        ensures { result ≡ has_reference self }
    {
        self.pi_type != 3
    }

    /// The bits of the reference tag.
    pub(crate) fn reference_bits(self) -> u32
        requires { is_good self ≡ true }
        ensures { result ≡ reference_bits self }
    {
        112 - self.guard - self.storage
    }

    /// The bytes of metadata before the information.
    pub(crate) fn info_at(self) -> usize
        requires { is_good self ≡ true }
        ensures { result ≡ info_at self }
    {
        if self.at_end == 0 {
            0
        } else {
            self.meta_size as usize - 16
        }
    }

    /// The bytes of a block with its metadata behind its data.
    pub(crate) fn stride(self) -> usize
        ensures { result ≡ stride_of self }
    {
        self.data_size as usize + self.meta_size as usize
    }

    /// The bytes of such a block before its information.
    pub(crate) fn covered(self) -> usize
        requires { is_good self ≡ true }
        ensures { result ≡ covered_of self }
    {
        self.data_size as usize + self.info_at()
    }

    /// How many blocks with their metadata behind them so many bytes are.
    pub(crate) fn count(self, len: usize) -> Result<usize, NvmeRefusal>
        ensures count { IfOk result (λ n. AreWideBlocks self len × (n ≡ len / stride_of self)) }
        ensures refused { IfErr result (λ e. Refused self len e) }
    {
        if !self.is_good() {
            return Err(NvmeRefusal::Layout);
        }
        let stride = self.stride();
        if len % stride != 0 {
            return Err(NvmeRefusal::Length);
        }
        Ok(len / stride)
    }
}
