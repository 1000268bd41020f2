//! Reference tags of blocks exchanged in place.

ghost use Rattle.std.specs.Prelude.{◌≡◌, ◌+◌, ◌*◌, ◌/◌, ◌≤◌, length, true, take, drop, if◌then◌else◌, IfErr, OnOk};
ghost use Rattle.pi_blocks.specs.Puts.{put_at};
ghost use Rattle.wide_blocks.specs.Layouts.{AreWideBlocks, Refused, has_reference, is_good, stride_of};
ghost use Rattle.wide_blocks.specs.Made.{place_in_line};
ghost use Rattle.wide_blocks.specs.Mapped.{all_mapped, exchanged};

use crate::block::reference_of;
use crate::information::{Information, info_at, set_info};
use crate::{NvmeLayout, NvmeRefusal};

// The reference tag of block i, where it is that of `from`, becomes that of `to`.
fn exchange(blocks: &mut [u8], layout: NvmeLayout, i: usize, from: u64, to: u64)
    requires good { is_good layout ≡ true }
    requires inside { i * stride_of layout + stride_of layout ≤ length blocks.old }
    ensures { blocks.new ≡ put_at (place_in_line layout i)
        (exchanged layout (from + i) (to + i) (take 16 (drop (place_in_line layout i) blocks.old))) blocks.old }
{
    let at = i * layout.stride() + layout.covered();
    let info = info_at(blocks, at, layout);
    if info.reference == reference_of(layout, from, i as u64) {
        let reference = reference_of(layout, to, i as u64);
        set_info(blocks, at, layout, Information { reference, ..info });
    }
}

// Exchanges the tags of so many blocks.
fn exchange_all(blocks: &mut [u8], layout: NvmeLayout, count: usize, from: u64, to: u64)
    requires good { is_good layout ≡ true }
    requires inside { count * stride_of layout ≤ length blocks.old }
    ensures { blocks.new ≡ all_mapped layout from to count blocks.old }
{
    for i in 0..count {
        exchange(blocks, layout, i, from, to);
    }
}

/// Maps the reference tags of blocks that lie one after another, in types 1 and 2: the tag of block `i`, where it is
/// `from + i`, becomes `to + i`, both modulo its width. Every other tag and every other byte stays. Where the call is
/// refused, all bytes stay.
pub fn remap_wide(
    blocks: &mut [u8],
    layout: &NvmeLayout,
    from: u64,
    to: u64,
) -> Result<(), NvmeRefusal>
    ensures mapped { OnOk result (AreWideBlocks layout.now (length blocks.old)
        × (blocks.new ≡ (if has_reference layout.now then all_mapped layout.now from to (length blocks.old / stride_of layout.now) blocks.old else blocks.old))) }
    ensures refused { IfErr result (λ e. Refused layout.now (length blocks.old) e × (blocks.new ≡ blocks.old)) }
{
    let layout = *layout;
    let count = layout.count(blocks.len())?;
    if layout.has_reference() {
        exchange_all(blocks, layout, count, from, to);
    }
    Ok(())
}
