//! Blocks made of data that lie in parts: each copied with its tuple in one pass.

ghost use Rattle.std.specs.Prelude.{◌≡◌, ℕ, List, ◌+◌, ◌*◌, ◌/◌, ◌^◌, ◌<◌, ◌≤◌, length, drop, true, IfErr, IfOk, OnOk};
ghost use Rattle.pi_blocks.specs.Inserted.{AreMoved, NotMoved, data_in, inserted, with_data, with_tuple};
ghost use Rattle.pi_blocks.specs.Layouts.{is_good, stride_of};
ghost use Rattle.pi_blocks.specs.Parts.{IsIn, all_parts, left_of};

use crate::apart::have_length;
use crate::making::set_tuple;
use crate::parts::{Place, copy_next, front};
use crate::{Layout, Part, Refusal};
use pi_tuple::{Tuple, own_tag};

// How many blocks these are, where the data are those of as many.
fn count_blocks(layout: Layout, body: &[Part], len: usize) -> Result<usize, Refusal>
    ensures count { IfOk result (λ n. AreMoved layout (length (all_parts body.now)) len × (n ≡ len / stride_of layout)) }
    ensures refused { IfErr result (λ e. NotMoved layout (length (all_parts body.now)) len e) }
{
    let count = layout.count(len)?;
    if !have_length(body, count as u128 * layout.data_size as u128) {
        return Err(Refusal::BadLength);
    }
    Ok(count)
}

// Makes the tuple of this block, which is block i.
fn seal(block: &mut [u8], layout: Layout, app: u16, first_ref: u32, i: usize)
    requires good { is_good layout ≡ true }
    requires long { length block.old ≡ stride_of layout }
    requires few { i * stride_of layout + stride_of layout < 2 ^ 64 }
    ensures { block.new ≡ with_tuple layout app first_ref i block.old }
{
    let end = layout.covered();
    let tuple = Tuple {
        guard: layout.kind().guard(&block[..end]),
        app,
        rtag: own_tag(layout.ty(), u64::from(first_ref) + i as u64),
    };
    set_tuple(block, end, tuple);
}

// Takes the data of this block, which is block i, from the place, and makes its tuple.
fn fill(
    block: &mut [u8],
    parts: &[Part],
    place: &mut Place,
    layout: Layout,
    app: u16,
    first_ref: u32,
    i: usize,
)
    requires good { is_good layout ≡ true }
    requires long { length block.old ≡ stride_of layout }
    requires few { i * stride_of layout + stride_of layout < 2 ^ 64 }
    requires placed { IsIn parts.now place.old }
    requires more { layout.data_size ≤ length (left_of parts.now place.old) }
    ensures made { (body : List ℕ) → left_of parts.now place.old ≡ drop (i * layout.data_size) body
        → block.new ≡ with_tuple layout app first_ref i (with_data layout (data_in layout body i) block.old) }
    ensures long { length block.new ≡ stride_of layout }
    ensures placed { IsIn parts.now place.new }
    ensures left { left_of parts.now place.new ≡ drop layout.data_size (left_of parts.now place.old) }
{
    copy_next(parts, place, &mut block[..layout.data_size as usize]);
    seal(block, layout, app, first_ref, i);
}

/// Makes blocks that lie one after another, each with its metadata behind its data, of data that lie in parts which end
/// anywhere: each block takes its data and gets its tuple as `generate` makes it, while it is in the cache. Every other
/// byte of its metadata stays, and those before the tuple are part of what its guard is of. Where the call is refused,
/// all bytes stay.
pub fn insert(
    body: &[Part],
    blocks: &mut [u8],
    layout: &Layout,
    app: u16,
    first_ref: u32,
) -> Result<(), Refusal>
    ensures made { OnOk result (AreMoved layout.now (length (all_parts body.now)) (length blocks.old)
        × (blocks.new ≡ inserted layout.now app first_ref (length blocks.old / stride_of layout.now) (all_parts body.now) blocks.old)) }
    ensures refused { IfErr result (λ e. NotMoved layout.now (length (all_parts body.now)) (length blocks.old) e
        × (blocks.new ≡ blocks.old)) }
{
    let layout = *layout;
    let stride = layout.stride();
    let mut place = front(body);
    for i in 0..count_blocks(layout, body, blocks.len())? {
        let at = i * stride;
        fill(
            &mut blocks[at..at + stride],
            body,
            &mut place,
            layout,
            app,
            first_ref,
            i,
        );
    }
    Ok(())
}
