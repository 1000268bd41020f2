//! The data of blocks: each is checked and copied in one pass.

ghost use Rattle.std.specs.Prelude.{◌≡◌, ℕ, List, ◌+◌, ◌*◌, ◌/◌, ◌^◌, ◌<◌, ◌≤◌, length, true, None, IfErr, IfOk, IfSome, if◌then◌else◌};
ghost use Rattle.pi_blocks.specs.Blocks.{Checked, in_line, looked};
ghost use Rattle.pi_blocks.specs.Inserted.{AreMoved, NotMoved, place_of_data};
ghost use Rattle.pi_blocks.specs.Layouts.{NotChecked, are_flags, is_good, stride_of};
ghost use Rattle.pi_blocks.specs.Puts.{put_at};
ghost use Rattle.pi_blocks.specs.Stripped.{AreMarked, AreStripped, NotMarked, all_marked, all_stripped, before, bytes_for};
ghost use Rattle.pi_blocks.specs.Stripped.{first_told, held, is_told, marks, stripped};

use crate::checking::look;
use crate::{Found, Layout, Refusal, Unchecked, Want};

// How many blocks so many bytes are, where so many others are the data of as many.
fn count_blocks(layout: Layout, len: usize, body_len: usize) -> Result<usize, Refusal>
    ensures count { IfOk result (λ n. AreMoved layout body_len len × (n ≡ len / stride_of layout)) }
    ensures refused { IfErr result (λ e. NotMoved layout body_len len e) }
{
    let count = layout.count(len)?;
    if body_len as u128 != count as u128 * layout.data_size as u128 {
        return Err(Refusal::BadLength);
    }
    Ok(count)
}

// Copies the data of block i to their place, unless the block differs.
fn strip_one(blocks: &[u8], body: &mut [u8], layout: Layout, want: Want, i: usize) -> Option<Found>
    requires good { is_good layout ≡ true }
    requires inside { i * stride_of layout + stride_of layout ≤ length blocks.now }
    requires room { i * layout.data_size + layout.data_size ≤ length body.old }
    ensures found { result ≡ looked layout want (in_line layout blocks.now) i }
    ensures differs { IfSome result (λ f. (f.block ≡ i) × (body.new ≡ body.old)) }
    ensures copied { result ≡ None → body.new ≡ put_at (place_of_data layout i) (held layout blocks.now i) body.old }
{
    let found = look(blocks, layout, want, i);
    if found.is_none() {
        let size = layout.data_size as usize;
        let (from, to) = (i * layout.stride(), i * size);
        body[to..to + size].copy_from_slice(&blocks[from..from + size]);
    }
    found
}

/// Checks blocks as `verify` does and copies the data of each that differs in nothing, up to the first that differs:
/// what stands in the places of its data and of those behind it stays. Where the call is refused, all bytes stay.
pub fn strip(
    blocks: &[u8],
    body: &mut [u8],
    layout: &Layout,
    want: &Want,
) -> Result<Option<Found>, Unchecked>
    ensures checked { IfOk result (λ found. AreMoved layout.now (length body.old) (length blocks.now)
        × (are_flags want.now.checks ≡ true)
        × Checked layout.now want.now (in_line layout.now blocks.now) 0 (length blocks.now / stride_of layout.now) found
        × (body.new ≡ stripped layout.now (before (length blocks.now / stride_of layout.now) found) blocks.now body.old)) }
    ensures refused { IfErr result (λ e. NotChecked (AreMoved layout.now (length body.old) (length blocks.now))
        (NotMoved layout.now (length body.old) (length blocks.now)) want.now.checks e × (body.new ≡ body.old)) }
{
    let layout = *layout;
    let want = *want;
    let count = count_blocks(layout, blocks.len(), body.len())?;
    if !want.has_flags() {
        return Err(Unchecked::Flags);
    }
    for i in 0..count {
        if let Some(found) = strip_one(blocks, body, layout, want, i) {
            return Ok(Some(found));
        }
    }
    Ok(None)
}

// How many bytes have a bit for each of so many blocks.
fn bytes_for(count: usize) -> usize
    ensures { result ≡ bytes_for count }
{
    let whole = count / 8;
    if count % 8 == 0 { whole } else { whole + 1 }
}

// What was told first.
fn first_told(before: Option<Found>, now: Option<Found>) -> Option<Found>
    ensures { result ≡ first_told before now }
{
    match before {
        None => now,
        Some(told) => Some(told),
    }
}

// The bit of a block in which this is found.
fn mark(told: Option<Found>, bit: u32) -> u32
    ensures { result ≡ (if is_told told then bit else 0) }
{
    match told {
        None => 0,
        Some(_) => bit,
    }
}

// Strips so many blocks from the first on, and answers their bits, and what was told first.
fn strip_some(
    blocks: &[u8],
    body: &mut [u8],
    layout: Layout,
    want: Want,
    first: usize,
    count: usize,
    before: Option<Found>,
) -> (u8, Option<Found>)
    requires good { is_good layout ≡ true }
    requires few { count ≤ 8 }
    requires fits { first + count < 2 ^ 64 }
    requires inside { (first + count) * stride_of layout ≤ length blocks.now }
    requires room { (first + count) * layout.data_size ≤ length body.old }
    ensures marks { result.0 ≡ marks layout want blocks.now first count }
    ensures told { Checked layout want (in_line layout blocks.now) 0 first before
        → Checked layout want (in_line layout blocks.now) 0 (first + count) result.1 }
    ensures moved { (old : List ℕ) → AreStripped layout want first blocks.now old body.old
        → AreStripped layout want (first + count) blocks.now old body.new }
{
    let mut bits = 0u32;
    let mut bit = 1u32;
    let mut told = before;
    for j in 0..count {
        let found = strip_one(blocks, body, layout, want, first + j);
        bits += mark(found, bit);
        bit *= 2;
        told = first_told(told, found);
    }
    (bits as u8, told)
}

/// Checks blocks as `verify` does and copies the data of each that differs in nothing; what stands in the places of the
/// others' data stays. A bitmap tells which ones differ: block `i` by bit `i % 8`, from the lowest on, of byte `i / 8`.
/// Its last bits, of no block, are 0, and its bytes behind them stay. The first difference is answered, or `None` where
/// there is none. A bitmap with fewer bits than there are blocks is refused as a length. Where the call is refused, all
/// bytes stay.
pub fn strip_all(
    blocks: &[u8],
    body: &mut [u8],
    bad: &mut [u8],
    layout: &Layout,
    want: &Want,
) -> Result<Option<Found>, Unchecked>
    ensures checked { IfOk result (λ found. AreMarked layout.now (length body.old) (length blocks.now) (length bad.old)
        × (are_flags want.now.checks ≡ true)
        × Checked layout.now want.now (in_line layout.now blocks.now) 0 (length blocks.now / stride_of layout.now) found
        × (body.new ≡ all_stripped layout.now want.now (length blocks.now / stride_of layout.now) blocks.now body.old)
        × (bad.new ≡ all_marked layout.now want.now (length blocks.now / stride_of layout.now) blocks.now bad.old)) }
    ensures refused { IfErr result (λ e. NotChecked (AreMarked layout.now (length body.old) (length blocks.now) (length bad.old))
        (NotMarked layout.now (length body.old) (length blocks.now) (length bad.old)) want.now.checks e
        × (body.new ≡ body.old) × (bad.new ≡ bad.old)) }
{
    let layout = *layout;
    let want = *want;
    let count = count_blocks(layout, blocks.len(), body.len())?;
    let size = bytes_for(count);
    if bad.len() < size {
        return Err(Unchecked::Blocks(Refusal::BadLength));
    }
    if !want.has_flags() {
        return Err(Unchecked::Flags);
    }
    let mut found = None;
    for k in 0..size {
        let first = 8 * k;
        let few = (count - first).min(8);
        let (marks, told) = strip_some(blocks, body, layout, want, first, few, found);
        bad[k] = marks;
        found = told;
    }
    Ok(found)
}
