//! Reference tags of blocks exchanged in place.

ghost use Rattle.std.specs.Prelude.{◌≡◌, ◌+◌, ◌*◌, ◌/◌, ◌≤◌, length, true, take, drop, IfErr, OnOk};
ghost use Rattle.pi_tuple.specs.Finds.{has_ref_tag};
ghost use Rattle.pi_blocks.specs.Layouts.{AreBlocks, Refused, covered_of, is_good, stride_of, type_of};
ghost use Rattle.pi_blocks.specs.Mapped.{all_mapped, exchanged};
ghost use Rattle.pi_blocks.specs.Puts.{put_at};

use crate::{Layout, Refusal};
use pi_tuple::{has_ref_tag, ref_tag};

// The tag at this place, where it is that of `from`, becomes that of `to`.
fn exchange(bytes: &mut [u8], at: usize, from: u64, to: u64)
    requires { at + 4 ≤ length bytes.old }
    ensures { bytes.new ≡ put_at at (exchanged from to (take 4 (drop at bytes.old))) bytes.old }
{
    let tag = u32::from_be_bytes([bytes[at], bytes[at + 1], bytes[at + 2], bytes[at + 3]]);
    if tag == ref_tag(from) {
        bytes[at..at + 4].copy_from_slice(&ref_tag(to).to_be_bytes());
    }
}

// Maps the tags of so many blocks of a type that has some.
fn exchange_all(blocks: &mut [u8], layout: Layout, count: usize, from: u32, to: u32)
    requires good { is_good layout ≡ true }
    requires tagged { has_ref_tag (type_of layout.pi_type) ≡ true }
    requires inside { count * stride_of layout ≤ length blocks.old }
    ensures { blocks.new ≡ all_mapped layout from to count blocks.old }
{
    let stride = layout.stride();
    let first = layout.covered() + 4;
    for i in 0..count {
        let k = i as u64;
        let (from, to) = (u64::from(from) + k, u64::from(to) + k);
        exchange(blocks, i * stride + first, from, to);
    }
}

/// Maps the reference tags of blocks that lie one after another, in types 1 and 2: the tag of block `i`, where it is
/// `from + i`, becomes `to + i`, both modulo 2^32. Every other tag and every other byte stays. Where the call is
/// refused, all bytes stay.
pub fn remap(blocks: &mut [u8], layout: &Layout, from: u32, to: u32) -> Result<(), Refusal>
    ensures mapped { OnOk result (AreBlocks layout.now (length blocks.old)
        × (blocks.new ≡ all_mapped layout.now from to (length blocks.old / stride_of layout.now) blocks.old)) }
    ensures refused { IfErr result (λ e. Refused layout.now (length blocks.old) e × (blocks.new ≡ blocks.old)) }
{
    let layout = *layout;
    let count = layout.count(blocks.len())?;
    if has_ref_tag(layout.ty()) {
        exchange_all(blocks, layout, count, from, to);
    }
    Ok(())
}
