//! Data copied to blocks and out of them, and blocks that lie over parts.

ghost use Rattle.std.specs.Prelude.{◌≡◌, ◌*◌, ◌/◌, ◌%◌, ◌^◌, ◌<◌, ◌≤◌, ◌⊎◌, length, true, false};
ghost use Rattle.pi_blocks.specs.Blocks.{AreFineFrom, IsFirst, in_line};
ghost use Rattle.pi_blocks.specs.Inserted.{AreMoved, inserted};
ghost use Rattle.pi_blocks.specs.Layouts.{are_flags, is_good, stride_of};
ghost use Rattle.pi_blocks.specs.Made.{made_in_line};
ghost use Rattle.pi_blocks.specs.Mapped.{all_mapped};
ghost use Rattle.pi_blocks.specs.Parts.{StaySame, all_parts, all_parts_mut};
ghost use Rattle.pi_blocks.specs.Spread.{AreSpread};
ghost use Rattle.pi_blocks.specs.Stripped.{AreMarked, all_marked, all_stripped, bytes_for, stripped};

use crate::status::{OK, status_of_none, told};
use pi_blocks::{
    Found, Layout, Part, PartMut, Want, generate_spread, insert, remap_spread, strip, strip_all,
    verify_spread,
};

/// Makes blocks of data that lie in parts: each block takes its data and gets its tuple, as `dixpi_generate` makes it.
/// All other bytes of its metadata stay. Answers `OK`, or why data and blocks don't go together; then all stays.
#[unsafe(no_mangle)]
pub extern "C" fn dixpi_insert(
    body: &[Part],
    blocks: &mut [u8],
    layout: &Layout,
    app: u16,
    first_ref: u32,
) -> u32
    ensures made { result ≡ 0 → AreMoved layout.now (length (all_parts body.now)) (length blocks.old)
        × (blocks.new ≡ inserted layout.now app first_ref (length blocks.old / stride_of layout.now)
        (all_parts body.now) blocks.old) }
    ensures bad_layout { result ≡ 2 → (is_good layout.now ≡ false) × (blocks.new ≡ blocks.old) }
    ensures bad_length { result ≡ 3 → (is_good layout.now ≡ true)
        × ¬ ((length blocks.old % stride_of layout.now ≡ 0)
        × (length (all_parts body.now) ≡ length blocks.old / stride_of layout.now * layout.now.data_size))
        × (blocks.new ≡ blocks.old) }
    ensures one_of { (result ≡ 0) ⊎ ((result ≡ 2) ⊎ (result ≡ 3)) }
{
    match insert(body, blocks, layout, app, first_ref) {
        Ok(()) => OK,
        Err(why) => status_of_none(why),
    }
}

/// Checks blocks as `dixpi_verify` does, and copies the data of each up to the first that differs. What stands in the
/// places of its data and of those behind it stays. `found` is written where a block differs alone.
#[unsafe(no_mangle)]
pub extern "C" fn dixpi_strip(
    blocks: &[u8],
    body: &mut [u8],
    layout: &Layout,
    want: &Want,
    found: &mut Found,
) -> u32
    ensures fine { result ≡ 0 → AreMoved layout.now (length body.old) (length blocks.now) × (are_flags want.now.checks ≡ true)
        × AreFineFrom layout.now want.now (in_line layout.now blocks.now) 0 (length blocks.now / stride_of layout.now)
        × (body.new ≡ stripped layout.now (length blocks.now / stride_of layout.now) blocks.now body.old) }
    ensures differs { result ≡ 1 → AreMoved layout.now (length body.old) (length blocks.now) × (are_flags want.now.checks ≡ true)
        × IsFirst layout.now want.now (in_line layout.now blocks.now) 0 (length blocks.now / stride_of layout.now) found.new
        × (body.new ≡ stripped layout.now found.new.block blocks.now body.old) }
    ensures bad_layout { result ≡ 2 → is_good layout.now ≡ false }
    ensures bad_length { result ≡ 3 → (is_good layout.now ≡ true)
        × ¬ ((length blocks.now % stride_of layout.now ≡ 0)
        × (length body.old ≡ length blocks.now / stride_of layout.now * layout.now.data_size)) }
    ensures bad_field { result ≡ 5 → AreMoved layout.now (length body.old) (length blocks.now)
        × (are_flags want.now.checks ≡ false) }
    ensures one_of { (result ≤ 3) ⊎ (result ≡ 5) }
    ensures refused { 2 ≤ result → body.new ≡ body.old }
    ensures stays { ¬ (result ≡ 1) → found.new ≡ found.old }
{
    told(strip(blocks, body, layout, want), found)
}

/// Checks blocks as `dixpi_verify` does, and copies the data of each that differs in nothing; what stands in the places of
/// the others' data stays. Bit `i % 8`, from the lowest on, of byte `i / 8` of `bad` is 1 where block `i` differs, and 0
/// elsewhere in these bytes; those behind stay. `found` is written where a block differs alone.
#[unsafe(no_mangle)]
pub extern "C" fn dixpi_strip_all(
    blocks: &[u8],
    body: &mut [u8],
    bad: &mut [u8],
    layout: &Layout,
    want: &Want,
    found: &mut Found,
) -> u32
    ensures fine { result ≡ 0 → AreMarked layout.now (length body.old) (length blocks.now) (length bad.old)
        × (are_flags want.now.checks ≡ true)
        × AreFineFrom layout.now want.now (in_line layout.now blocks.now) 0 (length blocks.now / stride_of layout.now) }
    ensures differs { result ≡ 1 → AreMarked layout.now (length body.old) (length blocks.now) (length bad.old)
        × (are_flags want.now.checks ≡ true)
        × IsFirst layout.now want.now (in_line layout.now blocks.now) 0 (length blocks.now / stride_of layout.now) found.new }
    ensures copied { result ≤ 1 → body.new ≡ all_stripped layout.now want.now
        (length blocks.now / stride_of layout.now) blocks.now body.old }
    ensures marked { result ≤ 1 → bad.new ≡ all_marked layout.now want.now
        (length blocks.now / stride_of layout.now) blocks.now bad.old }
    ensures bad_layout { result ≡ 2 → is_good layout.now ≡ false }
    ensures bad_length { result ≡ 3 → (is_good layout.now ≡ true)
        × ¬ ((length blocks.now % stride_of layout.now ≡ 0)
        × (length body.old ≡ length blocks.now / stride_of layout.now * layout.now.data_size)
        × (bytes_for (length blocks.now / stride_of layout.now) ≤ length bad.old)) }
    ensures bad_field { result ≡ 5 → AreMarked layout.now (length body.old) (length blocks.now) (length bad.old)
        × (are_flags want.now.checks ≡ false) }
    ensures one_of { (result ≤ 3) ⊎ (result ≡ 5) }
    ensures refused { 2 ≤ result → (body.new ≡ body.old) × (bad.new ≡ bad.old) }
    ensures stays { ¬ (result ≡ 1) → found.new ≡ found.old }
{
    told(strip_all(blocks, body, bad, layout, want), found)
}

/// Checks blocks that lie over parts, as `dixpi_verify_from` does those in one piece: the parts may end anywhere.
#[unsafe(no_mangle)]
pub extern "C" fn dixpi_verifyv(
    blocks: &[Part],
    layout: &Layout,
    want: &Want,
    start: u64,
    found: &mut Found,
) -> u32
    ensures fine { result ≡ 0 → AreSpread layout.now (length (all_parts blocks.now)) × (are_flags want.now.checks ≡ true)
        × AreFineFrom layout.now want.now (in_line layout.now (all_parts blocks.now)) start
        (length (all_parts blocks.now) / stride_of layout.now) }
    ensures differs { result ≡ 1 → AreSpread layout.now (length (all_parts blocks.now)) × (are_flags want.now.checks ≡ true)
        × IsFirst layout.now want.now (in_line layout.now (all_parts blocks.now)) start
        (length (all_parts blocks.now) / stride_of layout.now) found.new }
    ensures bad_layout { result ≡ 2 → is_good layout.now ≡ false }
    ensures bad_length { result ≡ 3 → (is_good layout.now ≡ true)
        × ¬ ((length (all_parts blocks.now) % stride_of layout.now ≡ 0) × (length (all_parts blocks.now) < 2 ^ 64)) }
    ensures bad_field { result ≡ 5 → AreSpread layout.now (length (all_parts blocks.now)) × (are_flags want.now.checks ≡ false) }
    ensures one_of { (result ≤ 3) ⊎ (result ≡ 5) }
    ensures stays { ¬ (result ≡ 1) → found.new ≡ found.old }
{
    told(verify_spread(blocks, layout, want, start), found)
}

/// Makes the tuples of blocks that lie over parts, as `dixpi_generate` does of those in one piece: the parts may end
/// anywhere, also within a tuple. Every other byte stays. Answers `OK`, or why the blocks are none; then all stays.
#[unsafe(no_mangle)]
pub extern "C" fn dixpi_generatev(
    blocks: &mut [PartMut],
    layout: &Layout,
    app: u16,
    first_ref: u32,
) -> u32
    ensures made { result ≡ 0 → AreSpread layout.now (length (all_parts_mut blocks.old))
        × (all_parts_mut blocks.new ≡ made_in_line layout.now app first_ref
        (length (all_parts_mut blocks.old) / stride_of layout.now) (all_parts_mut blocks.old)) }
    ensures bad_layout { result ≡ 2 → (is_good layout.now ≡ false) × (blocks.new ≡ blocks.old) }
    ensures bad_length { result ≡ 3 → (is_good layout.now ≡ true)
        × ¬ ((length (all_parts_mut blocks.old) % stride_of layout.now ≡ 0)
        × (length (all_parts_mut blocks.old) < 2 ^ 64))
        × (blocks.new ≡ blocks.old) }
    ensures one_of { (result ≡ 0) ⊎ ((result ≡ 2) ⊎ (result ≡ 3)) }
    ensures same { StaySame blocks.old blocks.new }
{
    match generate_spread(blocks, layout, app, first_ref) {
        Ok(()) => OK,
        Err(why) => status_of_none(why),
    }
}

/// Maps the reference tags of blocks that lie over parts, as `dixpi_remap` does of those in one piece: the parts may end
/// anywhere, also within a tag. Every other byte stays. Answers `OK`, or why the blocks are none; then all stays.
#[unsafe(no_mangle)]
pub extern "C" fn dixpi_remapv(blocks: &mut [PartMut], layout: &Layout, from: u32, to: u32) -> u32
    ensures mapped { result ≡ 0 → AreSpread layout.now (length (all_parts_mut blocks.old))
        × (all_parts_mut blocks.new ≡ all_mapped layout.now from to
        (length (all_parts_mut blocks.old) / stride_of layout.now) (all_parts_mut blocks.old)) }
    ensures bad_layout { result ≡ 2 → (is_good layout.now ≡ false) × (blocks.new ≡ blocks.old) }
    ensures bad_length { result ≡ 3 → (is_good layout.now ≡ true)
        × ¬ ((length (all_parts_mut blocks.old) % stride_of layout.now ≡ 0)
        × (length (all_parts_mut blocks.old) < 2 ^ 64))
        × (blocks.new ≡ blocks.old) }
    ensures one_of { (result ≡ 0) ⊎ ((result ≡ 2) ⊎ (result ≡ 3)) }
    ensures same { StaySame blocks.old blocks.new }
{
    match remap_spread(blocks, layout, from, to) {
        Ok(()) => OK,
        Err(why) => status_of_none(why),
    }
}
