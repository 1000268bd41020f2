//! Blocks that lie over parts, each with its metadata behind its data. A block may begin in one part and end in another.

ghost use Rattle.std.specs.Prelude.{◌≡◌, ℕ, List, ◌*◌, ◌/◌, ◌^◌, ◌<◌, ◌≤◌, length, take, drop, true, None, IfErr, IfOk, IfSome};
ghost use Rattle.pi_tuple.specs.Tuples.{tuple_in};
ghost use Rattle.pi_blocks.specs.Blocks.{Checked, in_line, looked};
ghost use Rattle.pi_blocks.specs.Layouts.{NotChecked, are_flags, is_good, stride_of};
ghost use Rattle.pi_blocks.specs.Parts.{IsIn, all_of, all_parts, left_of};
ghost use Rattle.pi_blocks.specs.Spread.{AreSpread, NotSpread};

use crate::block::compare;
use crate::parts::{Place, Readable, copy_next, front, guard_of_next, skip};
use crate::{Found, Layout, Part, Refusal, Unchecked, Want};
use pi_tuple::{TUPLE, Tuple};

// How many bytes the parts have, unless they are more than an address space has, as parts may share memory.
fn total<P: Readable>(parts: &[P]) -> Option<usize>
    ensures value { IfSome result (λ n. n ≡ length (all_of P.read parts.now)) }
    ensures none { result ≡ None → ¬ (length (all_of P.read parts.now) < 2 ^ 64) }
{
    let mut total = 0usize;
    for part in parts {
        total = total.checked_add(part.bytes().len())?;
    }
    Some(total)
}

/// How many blocks the parts' bytes are.
pub(crate) fn count_blocks<P: Readable>(layout: Layout, parts: &[P]) -> Result<usize, Refusal>
    ensures count { IfOk result (λ n. AreSpread layout (length (all_of P.read parts.now))
        × (n ≡ length (all_of P.read parts.now) / stride_of layout)) }
    ensures refused { IfErr result (λ e. NotSpread layout (length (all_of P.read parts.now)) e) }
{
    if !layout.is_good() {
        return Err(Refusal::BadLayout);
    }
    let Some(len) = total(parts) else {
        return Err(Refusal::BadLength);
    };
    layout.count(len)
}

// The tuple that comes next.
fn next_tuple(parts: &[Part], place: &mut Place) -> Tuple
    requires placed { IsIn parts.now place.old }
    requires more { TUPLE ≤ length (left_of parts.now place.old) }
    ensures value { result ≡ tuple_in (take TUPLE (left_of parts.now place.old)) }
    ensures placed { IsIn parts.now place.new }
    ensures left { left_of parts.now place.new ≡ drop TUPLE (left_of parts.now place.old) }
{
    let mut eight = [0; TUPLE];
    copy_next(parts, place, &mut eight);
    Tuple::from_bytes(&eight)
}

// What block i is found to differ in, which comes next.
fn look(parts: &[Part], place: &mut Place, layout: Layout, want: Want, i: usize) -> Option<Found>
    requires good { is_good layout ≡ true }
    requires placed { IsIn parts.now place.old }
    requires more { stride_of layout ≤ length (left_of parts.now place.old) }
    ensures found { (all : List ℕ) → left_of parts.now place.old ≡ drop (i * stride_of layout) all
        → result ≡ looked layout want (in_line layout all) i }
    ensures block { IfSome result (λ f. f.block ≡ i) }
    ensures placed { IsIn parts.now place.new }
    ensures left { left_of parts.now place.new ≡ drop (stride_of layout) (left_of parts.now place.old) }
{
    let covered = layout.covered();
    let guard = guard_of_next(parts, place, layout.kind(), covered, &[]);
    let tuple = next_tuple(parts, place);
    let behind = layout.stride() - covered - TUPLE;
    skip(parts, place, behind as u128);
    compare(layout, want, i as u64, guard, tuple)
}

// The place of block `start`, or of the end where there are no more than so many blocks.
fn place_of(parts: &[Part], layout: Layout, count: usize, start: u64) -> Place
    requires { length (all_parts parts.now) ≡ count * stride_of layout }
    ensures placed { IsIn parts.now result }
    ensures left { start ≤ count → left_of parts.now result ≡ drop (start * stride_of layout) (all_parts parts.now) }
{
    let mut place = front(parts);
    let before = start.min(count as u64);
    skip(parts, &mut place, before as u128 * layout.stride() as u128);
    place
}

/// Checks blocks that lie over parts, from block `start` on, as `verify` does of blocks in one piece. The parts may end
/// anywhere, also within a tuple, and have fewer than 2^64 bytes.
pub fn verify_spread(
    blocks: &[Part],
    layout: &Layout,
    want: &Want,
    start: u64,
) -> Result<Option<Found>, Unchecked>
    ensures checked { IfOk result (λ found. AreSpread layout.now (length (all_parts blocks.now))
        × (are_flags want.now.checks ≡ true) × Checked layout.now want.now (in_line layout.now (all_parts blocks.now)) start
        (length (all_parts blocks.now) / stride_of layout.now) found) }
    ensures refused { IfErr result (NotChecked (AreSpread layout.now (length (all_parts blocks.now)))
        (NotSpread layout.now (length (all_parts blocks.now))) want.now.checks) }
{
    let layout = *layout;
    let want = *want;
    let count = count_blocks(layout, blocks)?;
    if !want.has_flags() {
        return Err(Unchecked::Flags);
    }
    let mut place = place_of(blocks, layout, count, start);
    for i in start as usize..count {
        if let Some(found) = look(blocks, &mut place, layout, want, i) {
            return Ok(Some(found));
        }
    }
    Ok(None)
}
