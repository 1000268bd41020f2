//! The sixteen bytes of protection information.

ghost use Rattle.std.specs.Prelude.{◌≡◌, ◌+◌, ◌-◌, ◌*◌, ◌/◌, ◌%◌, ◌^◌, ◌<◌, ◌≤◌, ℕ, length, take, drop, true};
ghost use Rattle.pi_blocks.specs.Puts.{put_at};
ghost use Rattle.wide_blocks.specs.Information.{field, fields_of, info_bytes, info_in, joined, number_of};
ghost use Rattle.wide_blocks.specs.Layouts.{is_good};

use crate::NvmeLayout;

/// The fields of the information, which stand one after another, the most significant bit first (NVM Command Set
/// Specification, "Protection Information Formats").
#[derive(Clone, Copy, Debug)]
pub(crate) struct Information {
    /// The guard of the data, and of the metadata before the information.
    pub guard: u64,
    /// The application tag. FFFFh makes an escape.
    pub app: u16,
    /// The storage tag: the upper bits of the storage and reference space.
    pub storage: u64,
    /// The reference tag: the lower ones.
    pub reference: u64,
}

/// The low bits of a number.
#[inline(always)]
pub(crate) fn low(n: u128, width: u32) -> u64
    requires { width ≤ 64 }
    ensures { result ≡ n % 2 ^ width }
{
    (n & ((1 << width) - 1)) as u64
}

/// So many bits of 1.
#[inline(always)]
pub(crate) fn ones(width: u32) -> u64
    requires { width ≤ 64 }
    ensures { result ≡ 2 ^ width - 1 }
{
    low(u128::MAX, width)
}

// So many bits of a number, above so many others.
#[inline(always)]
fn field(n: u128, below: u32, width: u32) -> u64
    requires narrow { width ≤ 64 }
    requires inside { below < 128 }
    ensures { result ≡ field below width n }
{
    low(n >> below, width)
}

// A number of so many bits with so many of another behind it.
#[inline(always)]
fn joined(high: u128, bits: u32, width: u32, value: u64) -> u128
    requires narrow { width ≤ 64 }
    requires room { bits + width ≤ 128 }
    requires bits { high < 2 ^ bits }
    ensures value { result ≡ joined high width value }
    ensures bits { result < 2 ^ (bits + width) }
{
    (high << width) + u128::from(low(u128::from(value), width))
}

impl Information {
    // The number that the sixteen bytes spell.
    fn number(self, layout: NvmeLayout) -> u128
        requires { is_good layout ≡ true }
        ensures { result ≡ number_of layout self }
    {
        let guard = joined(0, 0, layout.guard, self.guard);
        let tags = joined(guard, layout.guard, 16, u64::from(self.app));
        let storage = joined(tags, layout.guard + 16, layout.storage, self.storage);
        joined(
            storage,
            layout.guard + 16 + layout.storage,
            layout.reference_bits(),
            self.reference,
        )
    }

    fn of_number(n: u128, layout: NvmeLayout) -> Information
        requires { is_good layout ≡ true }
        ensures { result ≡ fields_of layout n }
    {
        let bits = layout.reference_bits();
        Information {
            guard: field(n, 128 - layout.guard, layout.guard),
            app: (low(n >> (112 - layout.guard), 16) & 0xffff) as u16,
            storage: field(n, bits, layout.storage),
            reference: field(n, 0, bits),
        }
    }

    fn to_bytes(self, layout: NvmeLayout) -> [u8; 16]
        requires { is_good layout ≡ true }
        ensures { result ≡ info_bytes layout self }
    {
        self.number(layout).to_be_bytes()
    }

    fn from_bytes(bytes: &[u8; 16], layout: NvmeLayout) -> Information
        requires { is_good layout ≡ true }
        ensures { result ≡ info_in layout bytes.now }
    {
        Information::of_number(u128::from_be_bytes(*bytes), layout)
    }
}

/// The information at this place.
pub(crate) fn info_at(bytes: &[u8], at: usize, layout: NvmeLayout) -> Information
    requires good { is_good layout ≡ true }
    requires inside { at + 16 ≤ length bytes.now }
    ensures { result ≡ info_in layout (take 16 (drop at bytes.now)) }
{
    let Some(sixteen) = bytes[at..].first_chunk::<16>() else {
        unreachable!()
    };
    Information::from_bytes(sixteen, layout)
}

/// Writes the information at this place.
pub(crate) fn set_info(bytes: &mut [u8], at: usize, layout: NvmeLayout, info: Information)
    requires good { is_good layout ≡ true }
    requires inside { at + 16 ≤ length bytes.old }
    ensures { bytes.new ≡ put_at at (info_bytes layout info) bytes.old }
{
    bytes[at..at + 16].copy_from_slice(&info.to_bytes(layout));
}
