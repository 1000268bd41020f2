//! Blocks that lie one after another, each with its metadata behind its data.

ghost use Rattle.std.specs.Prelude.{◌≡◌, ◌/◌, ◌%◌, ◌⊎◌, ◌≤◌, length, true, false};
ghost use Rattle.pi_blocks.specs.Blocks.{AreFineFrom, IsFirst, in_line};
ghost use Rattle.pi_blocks.specs.Layouts.{AreBlocks, are_flags, is_good, stride_of};
ghost use Rattle.pi_blocks.specs.Made.{made_in_line};
ghost use Rattle.pi_blocks.specs.Mapped.{all_mapped};

use crate::status::{OK, status_of_none, told};
use pi_blocks::{Found, Layout, Want, generate, remap, verify};

/// Makes the tuples of blocks: guard, application tag, and in types 1 and 2 the reference tag `first_ref + i` of block
/// `i`, modulo 2^32; in type 3 it is 0. With the application tag FFFFh each block is an escape, which no check looks at
/// in types 1 and 2. Every other byte stays. Answers `OK`, or why the blocks are none; then all
/// stays.
#[unsafe(no_mangle)]
pub extern "C" fn dixpi_generate(
    blocks: &mut [u8],
    layout: &Layout,
    app: u16,
    first_ref: u32,
) -> u32
    ensures made { result ≡ 0 → AreBlocks layout.now (length blocks.old)
        × (blocks.new ≡ made_in_line layout.now app first_ref
        (length blocks.old / stride_of layout.now) blocks.old) }
    ensures bad_layout { result ≡ 2 → (is_good layout.now ≡ false) × (blocks.new ≡ blocks.old) }
    ensures bad_length { result ≡ 3 → (is_good layout.now ≡ true) × ¬ (length blocks.old % stride_of layout.now ≡ 0)
        × (blocks.new ≡ blocks.old) }
    ensures one_of { (result ≡ 0) ⊎ ((result ≡ 2) ⊎ (result ≡ 3)) }
{
    match generate(blocks, layout, app, first_ref) {
        Ok(()) => OK,
        Err(why) => status_of_none(why),
    }
}

/// Checks blocks. Answers `OK` where none differs, and `DIFFERS` where one does, of which the first is left in `found`;
/// else why they aren't checked. `found` is written where a block differs alone.
#[unsafe(no_mangle)]
pub extern "C" fn dixpi_verify(
    blocks: &[u8],
    layout: &Layout,
    want: &Want,
    found: &mut Found,
) -> u32
    ensures fine { result ≡ 0 → AreBlocks layout.now (length blocks.now) × (are_flags want.now.checks ≡ true)
        × AreFineFrom layout.now want.now (in_line layout.now blocks.now) 0 (length blocks.now / stride_of layout.now) }
    ensures differs { result ≡ 1 → AreBlocks layout.now (length blocks.now) × (are_flags want.now.checks ≡ true)
        × IsFirst layout.now want.now (in_line layout.now blocks.now) 0
        (length blocks.now / stride_of layout.now) found.new }
    ensures bad_layout { result ≡ 2 → is_good layout.now ≡ false }
    ensures bad_length { result ≡ 3 → (is_good layout.now ≡ true) × ¬ (length blocks.now % stride_of layout.now ≡ 0) }
    ensures bad_field { result ≡ 5 → AreBlocks layout.now (length blocks.now) × (are_flags want.now.checks ≡ false) }
    ensures one_of { (result ≤ 3) ⊎ (result ≡ 5) }
    ensures stays { ¬ (result ≡ 1) → found.new ≡ found.old }
{
    dixpi_verify_from(blocks, layout, want, 0, found)
}

/// Checks blocks as `dixpi_verify` does, from block `start` on: block and tag still count from the first. So the next
/// block that differs is found from `found.block + 1` on.
#[unsafe(no_mangle)]
pub extern "C" fn dixpi_verify_from(
    blocks: &[u8],
    layout: &Layout,
    want: &Want,
    start: u64,
    found: &mut Found,
) -> u32
    ensures fine { result ≡ 0 → AreBlocks layout.now (length blocks.now) × (are_flags want.now.checks ≡ true)
        × AreFineFrom layout.now want.now (in_line layout.now blocks.now) start
        (length blocks.now / stride_of layout.now) }
    ensures differs { result ≡ 1 → AreBlocks layout.now (length blocks.now) × (are_flags want.now.checks ≡ true)
        × IsFirst layout.now want.now (in_line layout.now blocks.now) start
        (length blocks.now / stride_of layout.now) found.new }
    ensures bad_layout { result ≡ 2 → is_good layout.now ≡ false }
    ensures bad_length { result ≡ 3 → (is_good layout.now ≡ true) × ¬ (length blocks.now % stride_of layout.now ≡ 0) }
    ensures bad_field { result ≡ 5 → AreBlocks layout.now (length blocks.now) × (are_flags want.now.checks ≡ false) }
    ensures one_of { (result ≤ 3) ⊎ (result ≡ 5) }
    ensures stays { ¬ (result ≡ 1) → found.new ≡ found.old }
{
    told(verify(blocks, layout, want, start), found)
}

/// Maps reference tags in place, in types 1 and 2: the tag of block `i`, where it is `from + i`, becomes `to + i`, both
/// modulo 2^32. Every other tag and every other byte stays. Answers `OK`, or why the blocks are none; then all stays.
#[unsafe(no_mangle)]
pub extern "C" fn dixpi_remap(blocks: &mut [u8], layout: &Layout, from: u32, to: u32) -> u32
    ensures mapped { result ≡ 0 → AreBlocks layout.now (length blocks.old)
        × (blocks.new ≡ all_mapped layout.now from to (length blocks.old / stride_of layout.now) blocks.old) }
    ensures bad_layout { result ≡ 2 → (is_good layout.now ≡ false) × (blocks.new ≡ blocks.old) }
    ensures bad_length { result ≡ 3 → (is_good layout.now ≡ true) × ¬ (length blocks.old % stride_of layout.now ≡ 0)
        × (blocks.new ≡ blocks.old) }
    ensures one_of { (result ≡ 0) ⊎ ((result ≡ 2) ⊎ (result ≡ 3)) }
{
    match remap(blocks, layout, from, to) {
        Ok(()) => OK,
        Err(why) => status_of_none(why),
    }
}
