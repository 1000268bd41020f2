//! Guards of 32 and 64 bits, and blocks with the sixteen bytes of protection information that carry them.

ghost use Rattle.std.specs.Prelude.{◌≡◌, ◌/◌, ◌⊎◌, ◌≤◌, ℕ, List, ◌++◌, length, true, false, if◌then◌else◌};
ghost use Rattle.wide_guard.specs.Reflected.{crc32c, crc64};
ghost use Rattle.wide_blocks.specs.Apart.{AreWideApart, RefusedApart};
ghost use Rattle.wide_blocks.specs.Blocks.{AreFineFrom, IsFirstWide, apart, in_line};
ghost use Rattle.wide_blocks.specs.Layouts.{AreWideBlocks, Refused, are_flags, fits_storage, has_reference, is_good, stride_of};
ghost use Rattle.wide_blocks.specs.Made.{made_apart, made_in_line};
ghost use Rattle.wide_blocks.specs.Mapped.{all_mapped};
ghost use Rattle.wide_blocks.specs.Moved.{inserted, stripped};
ghost use Rattle.wide_blocks.specs.declared.layout.NvmeRefusal.TheVariants.{Length};
ghost use Rattle.dixpi.specs.Nvme.{ToldNvme, nvme_status};

use crate::status::{BAD_FIELD, BAD_LAYOUT, BAD_LENGTH, DIFFERS, OK};
use wide_blocks::{
    NvmeFound, NvmeLayout, NvmeRefusal, NvmeTags, NvmeWant, generate_apart, generate_wide,
    insert_wide, remap_wide, strip_wide, verify_apart, verify_wide,
};
use wide_guard::{crc32c, crc32c_after, crc64, crc64_after};

/// CRC-32C of the bytes (RFC 3720, 12.1).
#[unsafe(no_mangle)]
pub extern "C" fn dixpi_crc32c(bytes: &[u8]) -> u32
    ensures { result ≡ crc32c bytes.now }
{
    crc32c(bytes)
}

/// CRC-32C of bytes of which the first ones have this CRC, by those behind them.
#[unsafe(no_mangle)]
pub extern "C" fn dixpi_crc32c_after(guard: u32, bytes: &[u8]) -> u32
    ensures { (b : List ℕ) → guard ≡ crc32c b → result ≡ crc32c (b ++ bytes.now) }
{
    crc32c_after(guard, bytes)
}

/// The CRC of 64 bits of NVMe of the bytes.
#[unsafe(no_mangle)]
pub extern "C" fn dixpi_crc64_nvme(bytes: &[u8]) -> u64
    ensures { result ≡ crc64 bytes.now }
{
    crc64(bytes)
}

/// The CRC of 64 bits of bytes of which the first ones have this CRC, by those behind them.
#[unsafe(no_mangle)]
pub extern "C" fn dixpi_crc64_nvme_after(guard: u64, bytes: &[u8]) -> u64
    ensures { (b : List ℕ) → guard ≡ crc64 b → result ≡ crc64 (b ++ bytes.now) }
{
    crc64_after(guard, bytes)
}

// The status of a refusal.
fn status_of_refusal(why: NvmeRefusal) -> u32
    ensures { result ≡ nvme_status why }
{
    match why {
        NvmeRefusal::Layout => BAD_LAYOUT,
        NvmeRefusal::Length => BAD_LENGTH,
        NvmeRefusal::Field => BAD_FIELD,
    }
}

// The status of a check that was made, or of why it wasn't. What was found is left in `found`.
fn told(answer: Result<Option<NvmeFound>, NvmeRefusal>, found: &mut NvmeFound) -> u32
    ensures { ToldNvme answer result found.old found.new }
{
    match answer {
        Ok(None) => OK,
        Ok(Some(first)) => {
            *found = first;
            DIFFERS
        }
        Err(why) => status_of_refusal(why),
    }
}

/// Makes the information of blocks: guard, application tag, storage tag, and in types 1 and 2 the reference tag
/// `first_ref + i` of block `i`, modulo its width; in type 3 it is 0. Every other byte stays. Answers `OK`; or why the
/// blocks are none, or `BAD_FIELD` where the storage tag has more bits than the layout's; then all stays.
#[unsafe(no_mangle)]
pub extern "C" fn dixpi_nvme_generate(
    blocks: &mut [u8],
    layout: &NvmeLayout,
    tags: &NvmeTags,
) -> u32
    ensures made { result ≡ 0 → AreWideBlocks layout.now (length blocks.old) × (fits_storage layout.now tags.now.storage ≡ true)
        × (blocks.new ≡ made_in_line layout.now tags.now (length blocks.old / stride_of layout.now) blocks.old) }
    ensures bad_layout { result ≡ 2 → is_good layout.now ≡ false }
    ensures bad_length { result ≡ 3 → Refused layout.now (length blocks.old) Length }
    ensures bad_field { result ≡ 5 → AreWideBlocks layout.now (length blocks.old) × (fits_storage layout.now tags.now.storage ≡ false) }
    ensures one_of { (result ≡ 0) ⊎ ((result ≡ 2) ⊎ ((result ≡ 3) ⊎ (result ≡ 5))) }
    ensures stays { ¬ (result ≡ 0) → blocks.new ≡ blocks.old }
{
    match generate_wide(blocks, layout, tags) {
        Ok(()) => OK,
        Err(why) => status_of_refusal(why),
    }
}

/// Checks blocks, from block `start` on; block and tag count from the first. Answers `OK` where none differs, and
/// `DIFFERS` where one does, of which the first is left in `found`; else why they aren't checked. `found` is written
/// where a block differs alone.
#[unsafe(no_mangle)]
pub extern "C" fn dixpi_nvme_verify(
    blocks: &[u8],
    layout: &NvmeLayout,
    want: &NvmeWant,
    start: u64,
    found: &mut NvmeFound,
) -> u32
    ensures fine { result ≡ 0 → AreWideBlocks layout.now (length blocks.now) × (are_flags want.now.checks ≡ true)
        × AreFineFrom layout.now want.now (in_line layout.now blocks.now) start (length blocks.now / stride_of layout.now) }
    ensures differs { result ≡ 1 → AreWideBlocks layout.now (length blocks.now) × (are_flags want.now.checks ≡ true)
        × IsFirstWide layout.now want.now (in_line layout.now blocks.now) start (length blocks.now / stride_of layout.now) found.new }
    ensures bad_layout { result ≡ 2 → is_good layout.now ≡ false }
    ensures bad_length { result ≡ 3 → Refused layout.now (length blocks.now) Length }
    ensures bad_field { result ≡ 5 → AreWideBlocks layout.now (length blocks.now) × (are_flags want.now.checks ≡ false) }
    ensures one_of { (result ≤ 3) ⊎ (result ≡ 5) }
    ensures stays { ¬ (result ≡ 1) → found.new ≡ found.old }
{
    told(verify_wide(blocks, layout, want, start), found)
}

/// Maps reference tags in place, in types 1 and 2: the tag of block `i`, where it is `from + i`, becomes `to + i`, both
/// modulo its width. Every other tag and every other byte stays. Answers `OK`, or why the blocks are none; then all stays.
#[unsafe(no_mangle)]
pub extern "C" fn dixpi_nvme_remap(
    blocks: &mut [u8],
    layout: &NvmeLayout,
    from: u64,
    to: u64,
) -> u32
    ensures mapped { result ≡ 0 → AreWideBlocks layout.now (length blocks.old)
        × (blocks.new ≡ (if has_reference layout.now then all_mapped layout.now from to (length blocks.old / stride_of layout.now) blocks.old else blocks.old)) }
    ensures bad_layout { result ≡ 2 → is_good layout.now ≡ false }
    ensures bad_length { result ≡ 3 → Refused layout.now (length blocks.old) Length }
    ensures one_of { (result ≡ 0) ⊎ ((result ≡ 2) ⊎ (result ≡ 3)) }
    ensures stays { ¬ (result ≡ 0) → blocks.new ≡ blocks.old }
{
    match remap_wide(blocks, layout, from, to) {
        Ok(()) => OK,
        Err(why) => status_of_refusal(why),
    }
}

/// Copies data to blocks and makes their information, as `dixpi_nvme_generate` does. Of the metadata every other byte
/// stays.
#[unsafe(no_mangle)]
pub extern "C" fn dixpi_nvme_insert(
    body: &[u8],
    blocks: &mut [u8],
    layout: &NvmeLayout,
    tags: &NvmeTags,
) -> u32
    ensures made { result ≡ 0 → AreWideApart layout.now (stride_of layout.now) (length body.now) (length blocks.old)
        × (fits_storage layout.now tags.now.storage ≡ true)
        × (blocks.new ≡ inserted layout.now tags.now (length blocks.old / stride_of layout.now) body.now blocks.old) }
    ensures bad_layout { result ≡ 2 → is_good layout.now ≡ false }
    ensures bad_length { result ≡ 3 → RefusedApart layout.now (stride_of layout.now) (length body.now) (length blocks.old) Length }
    ensures bad_field { result ≡ 5 → AreWideApart layout.now (stride_of layout.now) (length body.now) (length blocks.old)
        × (fits_storage layout.now tags.now.storage ≡ false) }
    ensures one_of { (result ≡ 0) ⊎ ((result ≡ 2) ⊎ ((result ≡ 3) ⊎ (result ≡ 5))) }
    ensures stays { ¬ (result ≡ 0) → blocks.new ≡ blocks.old }
{
    match insert_wide(body, blocks, layout, tags) {
        Ok(()) => OK,
        Err(why) => status_of_refusal(why),
    }
}

/// Checks blocks and copies the data of each until one differs; of that one on, the bytes of `body` stay. Answers as
/// `dixpi_nvme_verify` does from the first block on.
#[unsafe(no_mangle)]
pub extern "C" fn dixpi_nvme_strip(
    blocks: &[u8],
    body: &mut [u8],
    layout: &NvmeLayout,
    want: &NvmeWant,
    found: &mut NvmeFound,
) -> u32
    ensures fine { result ≡ 0 → AreWideApart layout.now (stride_of layout.now) (length body.old) (length blocks.now) × (are_flags want.now.checks ≡ true)
        × AreFineFrom layout.now want.now (in_line layout.now blocks.now) 0 (length blocks.now / stride_of layout.now)
        × (body.new ≡ stripped layout.now (length blocks.now / stride_of layout.now) blocks.now body.old) }
    ensures differs { result ≡ 1 → AreWideApart layout.now (stride_of layout.now) (length body.old) (length blocks.now) × (are_flags want.now.checks ≡ true)
        × IsFirstWide layout.now want.now (in_line layout.now blocks.now) 0 (length blocks.now / stride_of layout.now) found.new
        × (body.new ≡ stripped layout.now found.new.block blocks.now body.old) }
    ensures bad_layout { result ≡ 2 → is_good layout.now ≡ false }
    ensures bad_length { result ≡ 3 → RefusedApart layout.now (stride_of layout.now) (length body.old) (length blocks.now) Length }
    ensures bad_field { result ≡ 5 → AreWideApart layout.now (stride_of layout.now) (length body.old) (length blocks.now)
        × (are_flags want.now.checks ≡ false) }
    ensures one_of { (result ≤ 3) ⊎ (result ≡ 5) }
    ensures stays { ¬ (result ≡ 1) → found.new ≡ found.old }
    ensures refused { ¬ (result ≤ 1) → body.new ≡ body.old }
{
    told(strip_wide(blocks, body, layout, want), found)
}

/// Makes the information of blocks whose metadata lie in a buffer of their own, as `dixpi_nvme_generate` does. Only the
/// sixteen bytes of each information are written.
#[unsafe(no_mangle)]
pub extern "C" fn dixpi_nvme_dix_generate(
    body: &[u8],
    meta: &mut [u8],
    layout: &NvmeLayout,
    tags: &NvmeTags,
) -> u32
    ensures made { result ≡ 0 → AreWideApart layout.now layout.now.meta_size (length body.now) (length meta.old)
        × (fits_storage layout.now tags.now.storage ≡ true)
        × (meta.new ≡ made_apart layout.now tags.now (length meta.old / layout.now.meta_size) body.now meta.old) }
    ensures bad_layout { result ≡ 2 → is_good layout.now ≡ false }
    ensures bad_length { result ≡ 3 → RefusedApart layout.now layout.now.meta_size (length body.now) (length meta.old) Length }
    ensures bad_field { result ≡ 5 → AreWideApart layout.now layout.now.meta_size (length body.now) (length meta.old)
        × (fits_storage layout.now tags.now.storage ≡ false) }
    ensures one_of { (result ≡ 0) ⊎ ((result ≡ 2) ⊎ ((result ≡ 3) ⊎ (result ≡ 5))) }
    ensures stays { ¬ (result ≡ 0) → meta.new ≡ meta.old }
{
    match generate_apart(body, meta, layout, tags) {
        Ok(()) => OK,
        Err(why) => status_of_refusal(why),
    }
}

/// Checks blocks whose metadata lie in a buffer of their own, as `dixpi_nvme_verify` does.
#[unsafe(no_mangle)]
pub extern "C" fn dixpi_nvme_dix_verify(
    body: &[u8],
    meta: &[u8],
    layout: &NvmeLayout,
    want: &NvmeWant,
    start: u64,
    found: &mut NvmeFound,
) -> u32
    ensures fine { result ≡ 0 → AreWideApart layout.now layout.now.meta_size (length body.now) (length meta.now) × (are_flags want.now.checks ≡ true)
        × AreFineFrom layout.now want.now (apart layout.now body.now meta.now) start (length meta.now / layout.now.meta_size) }
    ensures differs { result ≡ 1 → AreWideApart layout.now layout.now.meta_size (length body.now) (length meta.now) × (are_flags want.now.checks ≡ true)
        × IsFirstWide layout.now want.now (apart layout.now body.now meta.now) start (length meta.now / layout.now.meta_size) found.new }
    ensures bad_layout { result ≡ 2 → is_good layout.now ≡ false }
    ensures bad_length { result ≡ 3 → RefusedApart layout.now layout.now.meta_size (length body.now) (length meta.now) Length }
    ensures bad_field { result ≡ 5 → AreWideApart layout.now layout.now.meta_size (length body.now) (length meta.now)
        × (are_flags want.now.checks ≡ false) }
    ensures one_of { (result ≤ 3) ⊎ (result ≡ 5) }
    ensures stays { ¬ (result ≡ 1) → found.new ≡ found.old }
{
    told(verify_apart(body, meta, layout, want, start), found)
}
