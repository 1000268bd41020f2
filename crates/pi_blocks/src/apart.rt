//! Data and metadata in buffers of their own, as host memory has them (DIX). The data may lie in parts that end
//! anywhere.

ghost use Rattle.std.specs.Prelude.{◌≡◌, ◌↔◌, ℕ, List, ◌+◌, ◌*◌, ◌/◌, ◌≤◌, length, drop, true};
ghost use Rattle.std.specs.Prelude.{IfErr, IfOk, IfSome, IsTrue, OnOk};
ghost use Rattle.pi_blocks.specs.Apart.{AreApart, RefusedApart};
ghost use Rattle.pi_blocks.specs.Blocks.{Checked, apart, looked};
ghost use Rattle.pi_blocks.specs.Layouts.{NotChecked, are_flags, is_good};
ghost use Rattle.pi_blocks.specs.Made.{made_apart, made_bytes, place_apart};
ghost use Rattle.pi_blocks.specs.Parts.{IsIn, all_parts, left_of};
ghost use Rattle.pi_blocks.specs.Puts.{put_at};

use crate::block::{compare, tuple_at};
use crate::making::set_tuple;
use crate::parts::{Place, front, guard_of_next, skip};
use crate::{Found, Layout, Part, Refusal, Unchecked, Want};
use pi_tuple::{Tuple, own_tag};

/// Whether the parts have so many bytes. They may be more than an address space has, as parts may share memory.
pub(crate) fn have_length(parts: &[Part], wanted: u128) -> bool
    ensures { IsTrue result ↔ (length (all_parts parts.now) ≡ wanted) }
{
    let mut left = wanted;
    for part in parts {
        let Some(rest) = left.checked_sub(part.bytes.len() as u128) else {
            return false;
        };
        left = rest;
    }
    left == 0
}

// How many blocks data and metadata are.
fn count_blocks(layout: Layout, body: &[Part], meta: &[u8]) -> Result<usize, Refusal>
    ensures count { IfOk result (λ n. AreApart layout (length (all_parts body.now)) (length meta.now)
        × (n ≡ length meta.now / layout.meta_size)) }
    ensures refused { IfErr result (λ e. RefusedApart layout (length (all_parts body.now)) (length meta.now) e) }
{
    if !layout.is_good() {
        return Err(Refusal::BadLayout);
    }
    let size = layout.meta_size as usize;
    let count = meta.len() / size;
    if meta.len() % size != 0 || !have_length(body, count as u128 * layout.data_size as u128) {
        return Err(Refusal::BadLength);
    }
    Ok(count)
}

// What block i is found to differ in, whose data are at the place.
fn look(
    parts: &[Part],
    place: &mut Place,
    meta: &[u8],
    layout: Layout,
    want: Want,
    i: usize,
) -> Option<Found>
    requires good { is_good layout ≡ true }
    requires inside { i * layout.meta_size + layout.meta_size ≤ length meta.now }
    requires placed { IsIn parts.now place.old }
    requires more { layout.data_size ≤ length (left_of parts.now place.old) }
    ensures found { (body : List ℕ) → left_of parts.now place.old ≡ drop (i * layout.data_size) body
        → result ≡ looked layout want (apart layout body meta.now) i }
    ensures block { IfSome result (λ f. f.block ≡ i) }
    ensures placed { IsIn parts.now place.new }
    ensures left { left_of parts.now place.new ≡ drop layout.data_size (left_of parts.now place.old) }
{
    let at = i * layout.meta_size as usize;
    let tuple = at + layout.tuple_at as usize;
    let guard = guard_of_next(
        parts,
        place,
        layout.kind(),
        layout.data_size as usize,
        &meta[at..tuple],
    );
    compare(layout, want, i as u64, guard, tuple_at(meta, tuple))
}

// Makes the tuple of block i, whose data are at the place.
fn make(
    parts: &[Part],
    place: &mut Place,
    meta: &mut [u8],
    layout: Layout,
    i: usize,
    app: u16,
    first_ref: u32,
)
    requires good { is_good layout ≡ true }
    requires inside { i * layout.meta_size + layout.meta_size ≤ length meta.old }
    requires placed { IsIn parts.now place.old }
    requires more { layout.data_size ≤ length (left_of parts.now place.old) }
    ensures made { (body : List ℕ) → left_of parts.now place.old ≡ drop (i * layout.data_size) body
        → meta.new ≡ put_at (place_apart layout i)
        (made_bytes layout app first_ref (apart layout body meta.old) i) meta.old }
    ensures placed { IsIn parts.now place.new }
    ensures left { left_of parts.now place.new ≡ drop layout.data_size (left_of parts.now place.old) }
{
    let at = i * layout.meta_size as usize;
    let end = at + layout.tuple_at as usize;
    let tuple = Tuple {
        guard: guard_of_next(
            parts,
            place,
            layout.kind(),
            layout.data_size as usize,
            &meta[at..end],
        ),
        app,
        rtag: own_tag(layout.ty(), u64::from(first_ref) + i as u64),
    };
    set_tuple(meta, end, tuple);
}

// The place of the data of block `start`, or of the end where there are no more than so many blocks.
fn place_of(parts: &[Part], layout: Layout, count: usize, start: u64) -> Place
    requires { length (all_parts parts.now) ≡ count * layout.data_size }
    ensures placed { IsIn parts.now result }
    ensures left { start ≤ count → left_of parts.now result ≡ drop (start * layout.data_size) (all_parts parts.now) }
{
    let mut place = front(parts);
    let before = start.min(count as u64);
    skip(parts, &mut place, before as u128 * layout.data_size as u128);
    place
}

/// Checks blocks whose metadata lie in a buffer of their own, from block `start` on, and answers the first difference,
/// or `None` where there is none, as `verify` does. A block's guard is of its data and of its metadata before the tuple.
pub fn dix_verify(
    body: &[Part],
    meta: &[u8],
    layout: &Layout,
    want: &Want,
    start: u64,
) -> Result<Option<Found>, Unchecked>
    ensures checked { IfOk result (λ found. AreApart layout.now (length (all_parts body.now)) (length meta.now)
        × (are_flags want.now.checks ≡ true) × Checked layout.now want.now (apart layout.now (all_parts body.now) meta.now) start
        (length meta.now / layout.now.meta_size) found) }
    ensures refused { IfErr result (NotChecked (AreApart layout.now (length (all_parts body.now)) (length meta.now))
        (RefusedApart layout.now (length (all_parts body.now)) (length meta.now)) want.now.checks) }
{
    let layout = *layout;
    let want = *want;
    let count = count_blocks(layout, body, meta)?;
    if !want.has_flags() {
        return Err(Unchecked::Flags);
    }
    let mut place = place_of(body, layout, count, start);
    for i in start as usize..count {
        if let Some(found) = look(body, &mut place, meta, layout, want, i) {
            return Ok(Some(found));
        }
    }
    Ok(None)
}

/// Makes the tuples of blocks whose metadata lie in a buffer of their own, as `generate` does. Only the eight bytes of
/// each tuple are written. Where the call is refused, all bytes stay.
pub fn dix_generate(
    body: &[Part],
    meta: &mut [u8],
    layout: &Layout,
    app: u16,
    first_ref: u32,
) -> Result<(), Refusal>
    ensures made { OnOk result (AreApart layout.now (length (all_parts body.now)) (length meta.old)
        × (meta.new ≡ made_apart layout.now app first_ref (length meta.old / layout.now.meta_size)
        (all_parts body.now) meta.old)) }
    ensures refused { IfErr result (λ e. RefusedApart layout.now (length (all_parts body.now)) (length meta.old) e
        × (meta.new ≡ meta.old)) }
{
    let layout = *layout;
    let mut place = front(body);
    for i in 0..count_blocks(layout, body, meta)? {
        make(body, &mut place, meta, layout, i, app, first_ref);
    }
    Ok(())
}
