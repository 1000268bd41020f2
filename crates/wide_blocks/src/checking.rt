//! The check of blocks.

ghost use Rattle.std.specs.Prelude.{◌≡◌, ◌+◌, ◌*◌, ◌/◌, ◌≤◌, length, true, IfErr, IfOk, IfSome};
ghost use Rattle.wide_blocks.specs.Blocks.{Checked, in_line, looked};
ghost use Rattle.wide_blocks.specs.Layouts.{AreWideBlocks, NotDone, Refused, are_flags, is_good, stride_of};

use crate::block::{compare, guard_of};
use crate::information::info_at;
use crate::{NvmeFound, NvmeLayout, NvmeRefusal, NvmeWant};

/// What block i is found to differ in.
pub(crate) fn look(blocks: &[u8], layout: NvmeLayout, want: NvmeWant, i: usize) -> Option<NvmeFound>
    requires good { is_good layout ≡ true }
    requires inside { i * stride_of layout + stride_of layout ≤ length blocks.now }
    ensures found { result ≡ looked layout want (in_line layout blocks.now) i }
    ensures block { IfSome result (λ f. f.block ≡ i) }
{
    let at = i * layout.stride();
    let end = at + layout.covered();
    let guard = guard_of(layout, &blocks[at..end]);
    compare(layout, want, i as u64, guard, info_at(blocks, end, layout))
}

/// Checks blocks that lie one after another, each with its metadata behind its data, from block `start` on, and answers
/// the first difference, or `None` where there is none. Block and tag count from the first block on, whatever the start.
/// An escape differs in nothing: application tag FFFFh, and in type 3 a storage and reference space of all ones too.
pub fn verify_wide(
    blocks: &[u8],
    layout: &NvmeLayout,
    want: &NvmeWant,
    start: u64,
) -> Result<Option<NvmeFound>, NvmeRefusal>
    ensures checked { IfOk result (λ found. AreWideBlocks layout.now (length blocks.now) × (are_flags want.now.checks ≡ true)
        × Checked layout.now want.now (in_line layout.now blocks.now) start
        (length blocks.now / stride_of layout.now) found) }
    ensures refused { IfErr result (NotDone (AreWideBlocks layout.now (length blocks.now)) (Refused layout.now (length blocks.now))
        (are_flags want.now.checks)) }
{
    let layout = *layout;
    let want = *want;
    let count = layout.count(blocks.len())?;
    if !want.has_flags() {
        return Err(NvmeRefusal::Field);
    }
    for i in start as usize..count {
        if let Some(found) = look(blocks, layout, want, i) {
            return Ok(Some(found));
        }
    }
    Ok(None)
}
