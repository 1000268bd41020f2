//! Blocks whose data are copied where they check.

ghost use Rattle.std.specs.Prelude.{◌≡◌, ◌+◌, ◌*◌, ◌/◌, ◌≤◌, length, true, IfErr, IfOk};
ghost use Rattle.pi_blocks.specs.Puts.{put_at};
ghost use Rattle.wide_blocks.specs.Apart.{AreWideApart, RefusedApart};
ghost use Rattle.wide_blocks.specs.Blocks.{Checked, in_line};
ghost use Rattle.wide_blocks.specs.Layouts.{NotDone, are_flags, is_good, stride_of};
ghost use Rattle.wide_blocks.specs.Moved.{data_at, good_before, stripped, stripped_block};

use crate::checking::look;
use crate::inserting::count_blocks;
use crate::{NvmeFound, NvmeLayout, NvmeRefusal, NvmeWant};

// Copies the data of block i.
fn copy(blocks: &[u8], body: &mut [u8], layout: NvmeLayout, i: usize)
    requires good { is_good layout ≡ true }
    requires inside { i * stride_of layout + stride_of layout ≤ length blocks.now }
    requires room { i * layout.data_size + layout.data_size ≤ length body.old }
    ensures { body.new ≡ put_at (data_at layout i) (stripped_block layout blocks.now i) body.old }
{
    let size = layout.data_size as usize;
    let at = i * layout.stride();
    body[i * size..i * size + size].copy_from_slice(&blocks[at..at + size]);
}

/// Checks blocks as `verify` does, and copies the data of each until one differs. Of that block on, the bytes of `body`
/// stay. Where the call is refused, all bytes stay.
pub fn strip_wide(
    blocks: &[u8],
    body: &mut [u8],
    layout: &NvmeLayout,
    want: &NvmeWant,
) -> Result<Option<NvmeFound>, NvmeRefusal>
    ensures checked { IfOk result (λ found. AreWideApart layout.now (stride_of layout.now) (length body.old) (length blocks.now) × (are_flags want.now.checks ≡ true)
        × Checked layout.now want.now (in_line layout.now blocks.now) 0 (length blocks.now / stride_of layout.now) found
        × (body.new ≡ stripped layout.now (good_before (length blocks.now / stride_of layout.now) found) blocks.now body.old)) }
    ensures refused { IfErr result (λ e. NotDone (AreWideApart layout.now (stride_of layout.now) (length body.old) (length blocks.now))
        (RefusedApart layout.now (stride_of layout.now) (length body.old) (length blocks.now)) (are_flags want.now.checks) e × (body.new ≡ body.old)) }
{
    let layout = *layout;
    let want = *want;
    let count = count_blocks(layout, body.len(), blocks.len())?;
    if !want.has_flags() {
        return Err(NvmeRefusal::Field);
    }
    for i in 0..count {
        if let Some(found) = look(blocks, layout, want, i) {
            return Ok(Some(found));
        }
        copy(blocks, body, layout, i);
    }
    Ok(None)
}
