//! Data and metadata in buffers of their own, as host memory may have them.

ghost use Rattle.std.specs.Prelude.{◌≡◌, ◌+◌, ◌*◌, ◌/◌, ◌≤◌, length, take, true, IfErr, IfOk, IfSome, OnOk, ◌++◌};
ghost use Rattle.pi_blocks.specs.Puts.{put_at};
ghost use Rattle.wide_blocks.specs.Apart.{AreWideApart, RefusedApart};
ghost use Rattle.wide_blocks.specs.Blocks.{Checked, apart, guard_of, looked};
ghost use Rattle.wide_blocks.specs.Layouts.{NotDone, are_flags, fits_storage, info_at, is_good};
ghost use Rattle.wide_blocks.specs.Made.{made_apart, made_bytes, place_apart};

use crate::block::{compare, guard_of_both};
use crate::information::{info_at, set_info};
use crate::inserting::count_pieces;
use crate::{NvmeFound, NvmeLayout, NvmeRefusal, NvmeTags, NvmeWant};

// What block i is found to differ in.
fn look(body: &[u8], meta: &[u8], layout: NvmeLayout, want: NvmeWant, i: usize) -> Option<NvmeFound>
    requires good { is_good layout ≡ true }
    requires inside { i * layout.meta_size + layout.meta_size ≤ length meta.now }
    requires more { i * layout.data_size + layout.data_size ≤ length body.now }
    ensures found { result ≡ looked layout want (apart layout body.now meta.now) i }
    ensures block { IfSome result (λ f. f.block ≡ i) }
{
    let size = layout.data_size as usize;
    let at = i * layout.meta_size as usize;
    let end = at + layout.info_at();
    let guard = guard_of_both(layout, &body[i * size..i * size + size], &meta[at..end]);
    compare(layout, want, i as u64, guard, info_at(meta, end, layout))
}

// Makes the information of block i.
fn make(body: &[u8], meta: &mut [u8], layout: NvmeLayout, i: usize, tags: NvmeTags)
    requires good { is_good layout ≡ true }
    requires inside { i * layout.meta_size + layout.meta_size ≤ length meta.old }
    requires more { i * layout.data_size + layout.data_size ≤ length body.now }
    ensures { meta.new ≡ put_at (place_apart layout i) (made_bytes layout tags (apart layout body.now meta.old) i) meta.old }
{
    let size = layout.data_size as usize;
    let at = i * layout.meta_size as usize;
    let end = at + layout.info_at();
    let guard = guard_of_both(layout, &body[i * size..i * size + size], &meta[at..end]);
    set_info(meta, end, layout, tags.info(layout, i as u64, guard));
}

/// Checks blocks whose metadata lie in a buffer of their own, from block `start` on, as `verify` does.
pub fn verify_apart(
    body: &[u8],
    meta: &[u8],
    layout: &NvmeLayout,
    want: &NvmeWant,
    start: u64,
) -> Result<Option<NvmeFound>, NvmeRefusal>
    ensures checked { IfOk result (λ found. AreWideApart layout.now layout.now.meta_size (length body.now) (length meta.now) × (are_flags want.now.checks ≡ true)
        × Checked layout.now want.now (apart layout.now body.now meta.now) start (length meta.now / layout.now.meta_size) found) }
    ensures refused { IfErr result (NotDone (AreWideApart layout.now layout.now.meta_size (length body.now) (length meta.now))
        (RefusedApart layout.now layout.now.meta_size (length body.now) (length meta.now)) (are_flags want.now.checks)) }
{
    let layout = *layout;
    let want = *want;
    let count = count_pieces(layout, layout.meta_size as usize, body.len(), meta.len())?;
    if !want.has_flags() {
        return Err(NvmeRefusal::Field);
    }
    for i in start as usize..count {
        if let Some(found) = look(body, meta, layout, want, i) {
            return Ok(Some(found));
        }
    }
    Ok(None)
}

/// Makes the information of blocks whose metadata lie in a buffer of their own, as `generate` does. Only the sixteen
/// bytes of each information are written. Where the call is refused, all bytes stay.
pub fn generate_apart(
    body: &[u8],
    meta: &mut [u8],
    layout: &NvmeLayout,
    tags: &NvmeTags,
) -> Result<(), NvmeRefusal>
    ensures made { OnOk result (AreWideApart layout.now layout.now.meta_size (length body.now) (length meta.old) × (fits_storage layout.now tags.now.storage ≡ true)
        × (meta.new ≡ made_apart layout.now tags.now (length meta.old / layout.now.meta_size) body.now meta.old)) }
    ensures refused { IfErr result (λ e. NotDone (AreWideApart layout.now layout.now.meta_size (length body.now) (length meta.old))
        (RefusedApart layout.now layout.now.meta_size (length body.now) (length meta.old)) (fits_storage layout.now tags.now.storage) e × (meta.new ≡ meta.old)) }
{
    let layout = *layout;
    let tags = *tags;
    let count = count_pieces(layout, layout.meta_size as usize, body.len(), meta.len())?;
    if !tags.fit(layout) {
        return Err(NvmeRefusal::Field);
    }
    for i in 0..count {
        make(body, meta, layout, i, tags);
    }
    Ok(())
}
