//! Blocks whose metadata lie in a buffer of their own, and their data in parts that end anywhere.

ghost use Rattle.std.specs.Prelude.{◌≡◌, ◌*◌, ◌/◌, ◌%◌, ◌⊎◌, ◌≤◌, length, true, false};
ghost use Rattle.pi_blocks.specs.Apart.{AreApart};
ghost use Rattle.pi_blocks.specs.Blocks.{AreFineFrom, IsFirst, apart};
ghost use Rattle.pi_blocks.specs.Layouts.{are_flags, is_good};
ghost use Rattle.pi_blocks.specs.Made.{made_apart};
ghost use Rattle.pi_blocks.specs.Parts.{all_parts};

use crate::status::{OK, status_of_none, told};
use pi_blocks::{Found, Layout, Part, Want, dix_generate, dix_verify};

/// Makes the tuples of blocks, as `dixpi_generate` does. Only the eight bytes of each tuple are written. Answers `OK`,
/// or why data and metadata are no blocks; then all stays.
#[unsafe(no_mangle)]
pub extern "C" fn dixpi_dix_generate(
    body: &[Part],
    meta: &mut [u8],
    layout: &Layout,
    app: u16,
    first_ref: u32,
) -> u32
    ensures made { result ≡ 0 → AreApart layout.now (length (all_parts body.now)) (length meta.old)
        × (meta.new ≡ made_apart layout.now app first_ref (length meta.old / layout.now.meta_size)
        (all_parts body.now) meta.old) }
    ensures bad_layout { result ≡ 2 → (is_good layout.now ≡ false) × (meta.new ≡ meta.old) }
    ensures bad_length { result ≡ 3 → (is_good layout.now ≡ true)
        × ¬ ((length meta.old % layout.now.meta_size ≡ 0)
        × (length (all_parts body.now) ≡ length meta.old / layout.now.meta_size * layout.now.data_size))
        × (meta.new ≡ meta.old) }
    ensures one_of { (result ≡ 0) ⊎ ((result ≡ 2) ⊎ (result ≡ 3)) }
{
    match dix_generate(body, meta, layout, app, first_ref) {
        Ok(()) => OK,
        Err(why) => status_of_none(why),
    }
}

/// Checks blocks, as `dixpi_verify` does. `found` is written where a block differs alone.
#[unsafe(no_mangle)]
pub extern "C" fn dixpi_dix_verify(
    body: &[Part],
    meta: &[u8],
    layout: &Layout,
    want: &Want,
    found: &mut Found,
) -> u32
    ensures fine { result ≡ 0 → AreApart layout.now (length (all_parts body.now)) (length meta.now)
        × (are_flags want.now.checks ≡ true) × AreFineFrom layout.now want.now (apart layout.now (all_parts body.now) meta.now) 0
        (length meta.now / layout.now.meta_size) }
    ensures differs { result ≡ 1 → AreApart layout.now (length (all_parts body.now)) (length meta.now)
        × (are_flags want.now.checks ≡ true) × IsFirst layout.now want.now (apart layout.now (all_parts body.now) meta.now) 0
        (length meta.now / layout.now.meta_size) found.new }
    ensures bad_layout { result ≡ 2 → is_good layout.now ≡ false }
    ensures bad_length { result ≡ 3 → (is_good layout.now ≡ true)
        × ¬ ((length meta.now % layout.now.meta_size ≡ 0)
        × (length (all_parts body.now) ≡ length meta.now / layout.now.meta_size * layout.now.data_size)) }
    ensures bad_field { result ≡ 5 → AreApart layout.now (length (all_parts body.now)) (length meta.now)
        × (are_flags want.now.checks ≡ false) }
    ensures one_of { (result ≤ 3) ⊎ (result ≡ 5) }
    ensures stays { ¬ (result ≡ 1) → found.new ≡ found.old }
{
    dixpi_dix_verify_from(body, meta, layout, want, 0, found)
}

/// Checks blocks as `dixpi_dix_verify` does, from block `start` on.
#[unsafe(no_mangle)]
pub extern "C" fn dixpi_dix_verify_from(
    body: &[Part],
    meta: &[u8],
    layout: &Layout,
    want: &Want,
    start: u64,
    found: &mut Found,
) -> u32
    ensures fine { result ≡ 0 → AreApart layout.now (length (all_parts body.now)) (length meta.now)
        × (are_flags want.now.checks ≡ true) × AreFineFrom layout.now want.now (apart layout.now (all_parts body.now) meta.now) start
        (length meta.now / layout.now.meta_size) }
    ensures differs { result ≡ 1 → AreApart layout.now (length (all_parts body.now)) (length meta.now)
        × (are_flags want.now.checks ≡ true) × IsFirst layout.now want.now (apart layout.now (all_parts body.now) meta.now) start
        (length meta.now / layout.now.meta_size) found.new }
    ensures bad_layout { result ≡ 2 → is_good layout.now ≡ false }
    ensures bad_length { result ≡ 3 → (is_good layout.now ≡ true)
        × ¬ ((length meta.now % layout.now.meta_size ≡ 0)
        × (length (all_parts body.now) ≡ length meta.now / layout.now.meta_size * layout.now.data_size)) }
    ensures bad_field { result ≡ 5 → AreApart layout.now (length (all_parts body.now)) (length meta.now)
        × (are_flags want.now.checks ≡ false) }
    ensures one_of { (result ≤ 3) ⊎ (result ≡ 5) }
    ensures stays { ¬ (result ≡ 1) → found.new ≡ found.old }
{
    told(dix_verify(body, meta, layout, want, start), found)
}
