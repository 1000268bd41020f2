//! What is wanted of blocks, and the difference that is found in one.

ghost use Rattle.std.specs.Prelude.{◌≡◌, ◌+◌, ◌%◌, ◌^◌, ◌++◌, IfSome, true};
ghost use Rattle.wide_blocks.specs.Blocks.{compared, guard_of, is_asked, is_escaped};
ghost use Rattle.wide_blocks.specs.Layouts.{are_flags, is_good, reference_bits};

use crate::NvmeLayout;
use crate::information::{Information, low, ones};
use wide_guard::{crc32c, crc32c_after, crc64, crc64_after};

/// What is wanted of the information of blocks.
#[repr(C)]
#[derive(Clone, Copy, Debug)]
pub struct NvmeWant {
    /// The reference tag of the first block. Each further block's is one more, modulo the tag's width.
    pub first_ref: u64,
    /// The storage tag.
    pub storage: u64,
    /// The bits of the storage tag that are checked (STM).
    pub storage_mask: u64,
    /// The application tag.
    pub app: u16,
    /// The bits of the application tag that are checked.
    pub mask: u16,
    /// What is checked: the guard by 2, the application tag by 4, the storage tag by 16, and by 8 the reference tag, in
    /// types 1 and 2; or nothing, by 1 alone.
    pub checks: u32,
}

/// The first difference that is found.
#[repr(C)]
#[derive(Clone, Copy, Debug)]
pub struct NvmeFound {
    /// The number of its block, from 0.
    pub block: u64,
    /// What is wanted: the data's guard, or a tag.
    pub expected: u64,
    /// What the information has.
    pub actual: u64,
    /// The check that found it, by its flag in `NvmeWant::checks`.
    pub check: u32,
}

/// The guard of the bytes.
pub(crate) fn guard_of(layout: NvmeLayout, bytes: &[u8]) -> u64
    ensures { result ≡ guard_of layout bytes.now }
{
    if layout.guard == 32 {
        u64::from(crc32c(bytes))
    } else {
        crc64(bytes)
    }
}

/// The guard of these bytes and those behind them.
pub(crate) fn guard_of_both(layout: NvmeLayout, front: &[u8], behind: &[u8]) -> u64
    ensures { result ≡ guard_of layout (front.now ++ behind.now) }
{
    if layout.guard == 32 {
        u64::from(crc32c_after(crc32c(front), behind))
    } else {
        crc64_after(crc64(front), behind)
    }
}

// Whether no check looks at the information.
fn is_escaped(layout: NvmeLayout, info: Information) -> bool
    requires { is_good layout ≡ true }
    ensures { result ≡ is_escaped layout info }
{
    let storage = ones(layout.storage);
    let reference = ones(layout.reference_bits());
    info.app == 0xFFFF
        && (layout.has_reference() || info.storage == storage && info.reference == reference)
}

/// The reference tag of this address, modulo its width.
pub(crate) fn reference_of(layout: NvmeLayout, first: u64, i: u64) -> u64
    requires { is_good layout ≡ true }
    ensures { result ≡ (first + i) % 2 ^ reference_bits layout }
{
    low(u128::from(first) + u128::from(i), layout.reference_bits())
}

impl NvmeWant {
    /// Whether the flags name checks and nothing else, or say that nothing is checked.
    pub(crate) fn has_flags(self) -> bool
        ensures { result ≡ are_flags self.checks }
    {
        let flags = self.checks;
        flags == 1 || 2 <= flags && flags < 32 && flags % 2 == 0
    }

    fn asks(self, flag: u32) -> bool
        ensures { result ≡ is_asked self flag }
    {
        self.checks & flag != 0
    }
}

/// What the information of block i is found to differ in, where the block's bytes have this guard.
pub(crate) fn compare(
    layout: NvmeLayout,
    want: NvmeWant,
    i: u64,
    guard: u64,
    info: Information,
) -> Option<NvmeFound>
    requires { is_good layout ≡ true }
    ensures found { result ≡ compared layout want i guard info }
    ensures block { IfSome result (λ f. f.block ≡ i) }
{
    if is_escaped(layout, info) {
        return None;
    }
    let reference = reference_of(layout, want.first_ref, i);
    let (check, expected, actual) = if want.asks(2) && info.guard != guard {
        (2, guard, info.guard)
    } else if want.asks(4) && info.app & want.mask != want.app & want.mask {
        (4, u64::from(want.app), u64::from(info.app))
    } else if want.asks(16)
        && info.storage & want.storage_mask != want.storage & want.storage_mask
    {
        (16, want.storage, info.storage)
    } else if want.asks(8) && layout.has_reference() && info.reference != reference {
        (8, reference, info.reference)
    } else {
        return None;
    };
    Some(NvmeFound {
        block: i,
        expected,
        actual,
        check,
    })
}
