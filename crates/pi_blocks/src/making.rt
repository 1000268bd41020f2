//! Tuples of blocks made in place.

ghost use Rattle.std.specs.Prelude.{◌≡◌, ◌+◌, ◌*◌, ◌/◌, ◌^◌, ◌<◌, ◌≤◌, length, true, IfErr, OnOk};
ghost use Rattle.pi_tuple.specs.Tuples.{tuple_bytes};
ghost use Rattle.pi_blocks.specs.Blocks.{in_line};
ghost use Rattle.pi_blocks.specs.Layouts.{AreBlocks, Refused, covered_of, is_good, stride_of};
ghost use Rattle.pi_blocks.specs.Made.{made_bytes, made_in_line, place_in_line};
ghost use Rattle.pi_blocks.specs.Puts.{put_at};

use crate::{Layout, Refusal};
use pi_tuple::{TUPLE, Tuple, own_tag};

/// Writes the tuple at this place.
pub(crate) fn set_tuple(bytes: &mut [u8], at: usize, tuple: Tuple)
    requires { at + TUPLE ≤ length bytes.old }
    ensures { bytes.new ≡ put_at at (tuple_bytes tuple) bytes.old }
{
    bytes[at..at + TUPLE].copy_from_slice(&tuple.to_bytes());
}

// Makes the tuple of block i.
fn make(blocks: &mut [u8], layout: Layout, i: usize, app: u16, first_ref: u32)
    requires good { is_good layout ≡ true }
    requires inside { i * stride_of layout + stride_of layout ≤ length blocks.old }
    ensures { blocks.new ≡ put_at (place_in_line layout i)
        (made_bytes layout app first_ref (in_line layout blocks.old) i) blocks.old }
{
    let at = i * layout.stride();
    let end = at + layout.covered();
    let tuple = Tuple {
        guard: layout.kind().guard(&blocks[at..end]),
        app,
        rtag: own_tag(layout.ty(), u64::from(first_ref) + i as u64),
    };
    set_tuple(blocks, end, tuple);
}

/// Makes the tuples of blocks that lie one after another, each with its metadata behind its data: the guard, the
/// application tag, and as reference tag `first_ref + i` for block `i`, modulo 2^32, in types 1 and 2, and 0 in type 3.
/// Every other byte stays. Where the call is refused, all bytes stay.
pub fn generate(blocks: &mut [u8], layout: &Layout, app: u16, first_ref: u32) -> Result<(), Refusal>
    ensures made { OnOk result (AreBlocks layout.now (length blocks.old)
        × (blocks.new ≡ made_in_line layout.now app first_ref (length blocks.old / stride_of layout.now) blocks.old)) }
    ensures refused { IfErr result (λ e. Refused layout.now (length blocks.old) e × (blocks.new ≡ blocks.old)) }
{
    let layout = *layout;
    for i in 0..layout.count(blocks.len())? {
        make(blocks, layout, i, app, first_ref);
    }
    Ok(())
}
