//! Tuples made, and reference tags exchanged, in blocks that lie over parts.

ghost use Rattle.std.specs.Prelude.{◌≡◌, ℕ, ◌+◌, ◌*◌, ◌/◌, ◌^◌, ◌<◌, ◌≤◌, length, true, take, drop, IfErr, OnOk};
ghost use Rattle.pi_tuple.specs.Finds.{has_ref_tag};
ghost use Rattle.pi_blocks.specs.Blocks.{in_line};
ghost use Rattle.pi_blocks.specs.Layouts.{is_good, stride_of, type_of};
ghost use Rattle.pi_blocks.specs.Made.{made_bytes, made_in_line, place_in_line};
ghost use Rattle.pi_blocks.specs.Mapped.{all_mapped, exchanged, tag_in, tag_place};
ghost use Rattle.pi_blocks.specs.Parts.{IsInside, StaySame, all_parts_mut, bytes_of_mut, left_in};
ghost use Rattle.pi_blocks.specs.Puts.{put_at};
ghost use Rattle.pi_blocks.specs.Spread.{AreSpread, NotSpread};

use crate::parts::{Place, copy_next, front, guard_of_next, skip};
use crate::spread::count_blocks;
use crate::writing::write_next;
use crate::{Layout, PartMut, Refusal};
use pi_tuple::{TUPLE, Tuple, has_ref_tag, own_tag, ref_tag};

// Makes the tuple of block i, which comes next.
fn make(
    parts: &mut [PartMut],
    place: &mut Place,
    layout: Layout,
    i: usize,
    app: u16,
    first_ref: u32,
)
    requires good { is_good layout ≡ true }
    requires few { i * stride_of layout + stride_of layout < 2 ^ 64 }
    requires placed { IsInside bytes_of_mut parts.old place.old }
    requires more { stride_of layout ≤ length (left_in bytes_of_mut parts.old place.old) }
    requires next { left_in bytes_of_mut parts.old place.old ≡ drop (i * stride_of layout) (all_parts_mut parts.old) }
    ensures made { all_parts_mut parts.new ≡ put_at (place_in_line layout i)
        (made_bytes layout app first_ref (in_line layout (all_parts_mut parts.old)) i) (all_parts_mut parts.old) }
    ensures placed { IsInside bytes_of_mut parts.new place.new }
    ensures left { left_in bytes_of_mut parts.new place.new
        ≡ drop (stride_of layout) (left_in bytes_of_mut parts.old place.old) }
    ensures same { StaySame parts.old parts.new }
{
    let covered = layout.covered();
    let tuple = Tuple {
        guard: guard_of_next(parts, place, layout.kind(), covered, &[]),
        app,
        rtag: own_tag(layout.ty(), u64::from(first_ref) + i as u64),
    };
    write_next(parts, place, &tuple.to_bytes());
    let behind = layout.stride() - covered - TUPLE;
    skip(parts, place, behind as u128);
}

// The tag that comes next, where it is that of `from`, becomes that of `to`.
fn exchange(parts: &mut [PartMut], place: &mut Place, from: u64, to: u64)
    requires placed { IsInside bytes_of_mut parts.old place.old }
    requires more { 4 ≤ length (left_in bytes_of_mut parts.old place.old) }
    ensures mapped { (at : ℕ) → at ≤ length (all_parts_mut parts.old)
        → left_in bytes_of_mut parts.old place.old ≡ drop at (all_parts_mut parts.old)
        → all_parts_mut parts.new ≡ put_at at (exchanged from to (take 4 (drop at (all_parts_mut parts.old))))
        (all_parts_mut parts.old) }
    ensures placed { IsInside bytes_of_mut parts.new place.new }
    ensures left { left_in bytes_of_mut parts.new place.new ≡ drop 4 (left_in bytes_of_mut parts.old place.old) }
    ensures same { StaySame parts.old parts.new }
{
    let mut tag = [0; 4];
    let mut behind = *place;
    copy_next(parts, &mut behind, &mut tag);
    if u32::from_be_bytes(tag) == ref_tag(from) {
        write_next(parts, place, &ref_tag(to).to_be_bytes());
    } else {
        *place = behind;
    }
}

// Maps the tag of block i, which comes next.
fn map_block(parts: &mut [PartMut], place: &mut Place, layout: Layout, i: usize, from: u32, to: u32)
    requires good { is_good layout ≡ true }
    requires few { i * stride_of layout + stride_of layout < 2 ^ 64 }
    requires placed { IsInside bytes_of_mut parts.old place.old }
    requires more { stride_of layout ≤ length (left_in bytes_of_mut parts.old place.old) }
    requires next { left_in bytes_of_mut parts.old place.old ≡ drop (i * stride_of layout) (all_parts_mut parts.old) }
    ensures mapped { all_parts_mut parts.new ≡ put_at (tag_place layout i)
        (exchanged (from + i) (to + i) (tag_in layout (all_parts_mut parts.old) i)) (all_parts_mut parts.old) }
    ensures placed { IsInside bytes_of_mut parts.new place.new }
    ensures left { left_in bytes_of_mut parts.new place.new
        ≡ drop (stride_of layout) (left_in bytes_of_mut parts.old place.old) }
    ensures same { StaySame parts.old parts.new }
{
    let before = layout.covered() + 4;
    skip(parts, place, before as u128);
    let k = i as u64;
    exchange(parts, place, u64::from(from) + k, u64::from(to) + k);
    let behind = layout.stride() - before - 4;
    skip(parts, place, behind as u128);
}

// Maps the tags of so many blocks of a type that has some.
fn map_all(blocks: &mut [PartMut], layout: Layout, count: usize, from: u32, to: u32)
    requires good { is_good layout ≡ true }
    requires tagged { has_ref_tag (type_of layout.pi_type) ≡ true }
    requires all { length (all_parts_mut blocks.old) ≡ count * stride_of layout }
    requires few { length (all_parts_mut blocks.old) < 2 ^ 64 }
    ensures mapped { all_parts_mut blocks.new ≡ all_mapped layout from to count (all_parts_mut blocks.old) }
    ensures same { StaySame blocks.old blocks.new }
{
    let mut place = front(blocks);
    for i in 0..count {
        map_block(blocks, &mut place, layout, i, from, to);
    }
}

/// Makes the tuples of blocks that lie over parts, as `generate` does of blocks in one piece. The parts may end anywhere,
/// also within a tuple, and have fewer than 2^64 bytes. Every other byte stays. Where the call is refused, all bytes stay.
pub fn generate_spread(
    blocks: &mut [PartMut],
    layout: &Layout,
    app: u16,
    first_ref: u32,
) -> Result<(), Refusal>
    ensures made { OnOk result (AreSpread layout.now (length (all_parts_mut blocks.old))
        × (all_parts_mut blocks.new ≡ made_in_line layout.now app first_ref
        (length (all_parts_mut blocks.old) / stride_of layout.now) (all_parts_mut blocks.old))) }
    ensures refused { IfErr result (λ e. NotSpread layout.now (length (all_parts_mut blocks.old)) e
        × (blocks.new ≡ blocks.old)) }
    ensures same { StaySame blocks.old blocks.new }
{
    let layout = *layout;
    let count = count_blocks(layout, blocks)?;
    let mut place = front(blocks);
    for i in 0..count {
        make(blocks, &mut place, layout, i, app, first_ref);
    }
    Ok(())
}

/// Maps the reference tags of blocks that lie over parts, as `remap` does of blocks in one piece. The parts may end
/// anywhere, also within a tag, and have fewer than 2^64 bytes. Every other byte stays. Where the call is refused, all
/// bytes stay.
pub fn remap_spread(
    blocks: &mut [PartMut],
    layout: &Layout,
    from: u32,
    to: u32,
) -> Result<(), Refusal>
    ensures mapped { OnOk result (AreSpread layout.now (length (all_parts_mut blocks.old))
        × (all_parts_mut blocks.new ≡ all_mapped layout.now from to
        (length (all_parts_mut blocks.old) / stride_of layout.now) (all_parts_mut blocks.old))) }
    ensures refused { IfErr result (λ e. NotSpread layout.now (length (all_parts_mut blocks.old)) e
        × (blocks.new ≡ blocks.old)) }
    ensures same { StaySame blocks.old blocks.new }
{
    let layout = *layout;
    let count = count_blocks(layout, blocks)?;
    if has_ref_tag(layout.ty()) {
        map_all(blocks, layout, count, from, to);
    }
    Ok(())
}
