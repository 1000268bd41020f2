//! Protection information of blocks made in place.

ghost use Rattle.std.specs.Prelude.{◌≡◌, ◌+◌, ◌*◌, ◌/◌, ◌≤◌, length, true, IfErr, OnOk};
ghost use Rattle.pi_blocks.specs.Puts.{put_at};
ghost use Rattle.wide_blocks.specs.Blocks.{guard_of, in_line};
ghost use Rattle.wide_blocks.specs.Information.{info_bytes};
ghost use Rattle.wide_blocks.specs.Layouts.{AreWideBlocks, NotDone, Refused, fits_storage, is_good, stride_of};
ghost use Rattle.wide_blocks.specs.Made.{made_bytes, made_in_line, own_reference, place_in_line};

use crate::block::{guard_of, reference_of};
use crate::information::{Information, set_info};
use crate::{NvmeLayout, NvmeRefusal};

/// The tags that are written.
#[repr(C)]
#[derive(Clone, Copy, Debug)]
pub struct NvmeTags {
    /// The reference tag of the first block. Each further block's is one more, modulo the tag's width.
    pub first_ref: u64,
    /// The storage tag.
    pub storage: u64,
    /// The application tag.
    pub app: u16,
}

impl NvmeTags {
    /// Whether the storage tag has no more bits than the layout's.
    pub(crate) fn fit(self, layout: NvmeLayout) -> bool
        requires { is_good layout ≡ true }
        ensures { result ≡ fits_storage layout self.storage }
    {
        u128::from(self.storage) < 1 << layout.storage
    }

    // The reference tag of block i.
    fn reference(self, layout: NvmeLayout, i: u64) -> u64
        requires { is_good layout ≡ true }
        ensures { result ≡ own_reference layout self i }
    {
        if layout.has_reference() {
            reference_of(layout, self.first_ref, i)
        } else {
            0
        }
    }

    /// The information of block i, whose bytes have this guard.
    pub(crate) fn info(self, layout: NvmeLayout, i: u64, guard: u64) -> Information
        requires { is_good layout ≡ true }
        ensures { result ≡ record { guard = guard; app = self.app; storage = self.storage; reference = own_reference layout self i } }
    {
        Information {
            guard,
            app: self.app,
            storage: self.storage,
            reference: self.reference(layout, i),
        }
    }
}

/// Makes the information of block i.
pub(crate) fn make(blocks: &mut [u8], layout: NvmeLayout, i: usize, tags: NvmeTags)
    requires good { is_good layout ≡ true }
    requires inside { i * stride_of layout + stride_of layout ≤ length blocks.old }
    ensures { blocks.new ≡ put_at (place_in_line layout i) (made_bytes layout tags (in_line layout blocks.old) i) blocks.old }
{
    let at = i * layout.stride();
    let end = at + layout.covered();
    let guard = guard_of(layout, &blocks[at..end]);
    set_info(blocks, end, layout, tags.info(layout, i as u64, guard));
}

/// Makes the information of blocks that lie one after another, each with its metadata behind its data: the guard, the
/// application tag, the storage tag, and as reference tag `first_ref + i` for block `i`, modulo its width, in types 1 and
/// 2, and 0 in type 3. Every other byte stays. Where the call is refused, all bytes stay.
pub fn generate_wide(
    blocks: &mut [u8],
    layout: &NvmeLayout,
    tags: &NvmeTags,
) -> Result<(), NvmeRefusal>
    ensures made { OnOk result (AreWideBlocks layout.now (length blocks.old) × (fits_storage layout.now tags.now.storage ≡ true)
        × (blocks.new ≡ made_in_line layout.now tags.now (length blocks.old / stride_of layout.now) blocks.old)) }
    ensures refused { IfErr result (λ e. NotDone (AreWideBlocks layout.now (length blocks.old)) (Refused layout.now (length blocks.old))
        (fits_storage layout.now tags.now.storage) e × (blocks.new ≡ blocks.old)) }
{
    let layout = *layout;
    let tags = *tags;
    let count = layout.count(blocks.len())?;
    if !tags.fit(layout) {
        return Err(NvmeRefusal::Field);
    }
    for i in 0..count {
        make(blocks, layout, i, tags);
    }
    Ok(())
}
