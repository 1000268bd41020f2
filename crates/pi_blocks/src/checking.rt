//! The check of blocks.

ghost use Rattle.std.specs.Prelude.{◌≡◌, ◌+◌, ◌*◌, ◌/◌, ◌≤◌, length, true, IfErr, IfOk, IfSome};
ghost use Rattle.pi_blocks.specs.Blocks.{Checked, in_line, looked};
ghost use Rattle.pi_blocks.specs.Layouts.{AreBlocks, NotChecked, Refused, are_flags, is_good, stride_of};

use crate::block::{compare, tuple_at};
use crate::{Found, Layout, Unchecked, Want};

/// What block i is found to differ in.
pub(crate) fn look(blocks: &[u8], layout: Layout, want: Want, i: usize) -> Option<Found>
    requires good { is_good layout ≡ true }
    requires inside { i * stride_of layout + stride_of layout ≤ length blocks.now }
    ensures found { result ≡ looked layout want (in_line layout blocks.now) i }
    ensures block { IfSome result (λ f. f.block ≡ i) }
{
    let at = i * layout.stride();
    let tuple = at + layout.covered();
    let guard = layout.kind().guard(&blocks[at..tuple]);
    compare(layout, want, i as u64, guard, tuple_at(blocks, tuple))
}

/// Checks blocks that lie one after another, each with its metadata behind its data, from block `start` on, and answers
/// the first difference, or `None` where there is none. Block and tag count from the first block on, whatever the start:
/// so a caller who begins behind the block that was found goes on. A tuple that is an escape (application tag FFFFh; in
/// type 3 reference tag FFFFFFFFh too) differs in nothing.
pub fn verify(
    blocks: &[u8],
    layout: &Layout,
    want: &Want,
    start: u64,
) -> Result<Option<Found>, Unchecked>
    ensures checked { IfOk result (λ found. AreBlocks layout.now (length blocks.now) × (are_flags want.now.checks ≡ true)
        × Checked layout.now want.now (in_line layout.now blocks.now) start
        (length blocks.now / stride_of layout.now) found) }
    ensures refused { IfErr result (NotChecked (AreBlocks layout.now (length blocks.now)) (Refused layout.now (length blocks.now)) want.now.checks) }
{
    let layout = *layout;
    let want = *want;
    let count = layout.count(blocks.len())?;
    if !want.has_flags() {
        return Err(Unchecked::Flags);
    }
    for i in start as usize..count {
        if let Some(found) = look(blocks, layout, want, i) {
            return Ok(Some(found));
        }
    }
    Ok(None)
}
