//! Data that get metadata with protection information behind each block.

ghost use Rattle.std.specs.Prelude.{◌≡◌, ◌+◌, ◌*◌, ◌/◌, ◌≤◌, length, true, IfErr, IfOk, OnOk};
ghost use Rattle.pi_blocks.specs.Puts.{put_at};
ghost use Rattle.wide_blocks.specs.Apart.{AreWideApart, RefusedApart};
ghost use Rattle.wide_blocks.specs.Layouts.{NotDone, fits_storage, is_good, stride_of};
ghost use Rattle.wide_blocks.specs.Moved.{block_at, data_of, inserted, inserted_block};

use crate::making::make;
use crate::{NvmeLayout, NvmeRefusal, NvmeTags};

/// How many blocks of these sizes there are, with as many data beside them.
pub(crate) fn count_pieces(
    layout: NvmeLayout,
    size: usize,
    body: usize,
    all: usize,
) -> Result<usize, NvmeRefusal>
    requires { is_good layout ≡ true → 16 ≤ size }
    ensures count { IfOk result (λ n. AreWideApart layout size body all × (n ≡ all / size)) }
    ensures refused { IfErr result (λ e. RefusedApart layout size body all e) }
{
    if !layout.is_good() {
        return Err(NvmeRefusal::Layout);
    }
    let count = all / size;
    let wanted = count as u128 * layout.data_size as u128;
    if all % size != 0 || body as u128 != wanted {
        return Err(NvmeRefusal::Length);
    }
    Ok(count)
}

/// How many blocks these are, with as many data beside them.
pub(crate) fn count_blocks(
    layout: NvmeLayout,
    body: usize,
    blocks: usize,
) -> Result<usize, NvmeRefusal>
    ensures count { IfOk result (λ n. AreWideApart layout (stride_of layout) body blocks × (n ≡ blocks / stride_of layout)) }
    ensures refused { IfErr result (λ e. RefusedApart layout (stride_of layout) body blocks e) }
{
    count_pieces(layout, layout.stride(), body, blocks)
}

// Puts the data of block i before its metadata.
fn put_data(body: &[u8], blocks: &mut [u8], layout: NvmeLayout, i: usize)
    requires good { is_good layout ≡ true }
    requires inside { i * stride_of layout + stride_of layout ≤ length blocks.old }
    requires more { i * layout.data_size + layout.data_size ≤ length body.now }
    ensures { blocks.new ≡ put_at (block_at layout i) (data_of layout body.now i) blocks.old }
{
    let size = layout.data_size as usize;
    let at = i * layout.stride();
    blocks[at..at + size].copy_from_slice(&body[i * size..i * size + size]);
}

// Inserts the data of block i.
fn fill(body: &[u8], blocks: &mut [u8], layout: NvmeLayout, i: usize, tags: NvmeTags)
    requires good { is_good layout ≡ true }
    requires inside { i * stride_of layout + stride_of layout ≤ length blocks.old }
    requires more { i * layout.data_size + layout.data_size ≤ length body.now }
    ensures { blocks.new ≡ put_at (block_at layout i) (inserted_block layout tags body.now blocks.old i) blocks.old }
{
    put_data(body, blocks, layout, i);
    make(blocks, layout, i, tags);
}

/// Copies data to blocks that lie one after another, and makes each block's information as `generate` does. Of the
/// metadata every other byte stays. Where the call is refused, all bytes stay.
pub fn insert_wide(
    body: &[u8],
    blocks: &mut [u8],
    layout: &NvmeLayout,
    tags: &NvmeTags,
) -> Result<(), NvmeRefusal>
    ensures made { OnOk result (AreWideApart layout.now (stride_of layout.now) (length body.now) (length blocks.old) × (fits_storage layout.now tags.now.storage ≡ true)
        × (blocks.new ≡ inserted layout.now tags.now (length blocks.old / stride_of layout.now) body.now blocks.old)) }
    ensures refused { IfErr result (λ e. NotDone (AreWideApart layout.now (stride_of layout.now) (length body.now) (length blocks.old))
        (RefusedApart layout.now (stride_of layout.now) (length body.now) (length blocks.old)) (fits_storage layout.now tags.now.storage) e × (blocks.new ≡ blocks.old)) }
{
    let layout = *layout;
    let tags = *tags;
    let count = count_blocks(layout, body.len(), blocks.len())?;
    if !tags.fit(layout) {
        return Err(NvmeRefusal::Field);
    }
    for i in 0..count {
        fill(body, blocks, layout, i, tags);
    }
    Ok(())
}
