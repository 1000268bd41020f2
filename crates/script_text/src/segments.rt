//! What is asked of the segments of a line.

ghost use Rattle.std.specs.Prelude.{◌++◌, IsPermutation, ◌≡◌, ◌<◌, ◌≤◌, ◌^◌, ◌*◌, ◌+◌, All, IfOk, IsTrue, length, true};
ghost use Rattle.page_pool.specs.Cuts.{past, upto};
ghost use Rattle.page_pool.specs.Places.{total};
ghost use Rattle.page_pool.specs.Walking.{InPages};
ghost use Rattle.page_pool.specs.Places.{places_in};
ghost use Rattle.script_text.specs.Segments.{any_share, are_few_each, are_inside, are_whole_tuples, do_overlap, is_inside};
ghost use Rattle.stack_ops.specs.Passed.{IsSound, Rises, begins};

use page_pool::{PAGE, Seg, SgList, Walk};
use pi_tuple::TUPLE;
use smallvec::SmallVec;
use std::alloc::{AllocError, Global};

/// A block lies in at most this many segments.
const BLOCK_SEGS: u32 = 4;

/// The segment has bytes, and they lie in one of so many pages.
pub(crate) fn is_inside(seg: Seg, pages: u32) -> bool
    ensures { result ≡ is_inside pages seg }
{
    seg.page < pages && seg.len > 0 && seg.off <= PAGE && seg.len <= PAGE - seg.off
}

pub(crate) fn are_inside(segs: &[Seg], pages: u32) -> bool
    ensures { result ≡ are_inside pages segs.now }
{
    segs.iter().all(|seg| is_inside(*seg, pages))
}

/// The list of these segments. The one error is want of memory.
pub(crate) fn sg_list(alloc: Global, segs: &[Seg]) -> Result<SgList, AllocError>
    requires { total segs.now < 2 ^ 32 }
    ensures { IfOk result (λ list. list ≡ segs.now) }
{
    Ok(SgList::from_segs(SmallVec::from_slice(alloc, segs)?))
}

/// Whether each tuple lies in one segment, since each segment has whole tuples.
pub(crate) fn are_whole_tuples(segs: &[Seg]) -> bool
    ensures { result ≡ are_whole_tuples segs.now }
{
    segs.iter().all(|seg| seg.len % TUPLE as u32 == 0)
}

/// The parts of segments that the next bytes of a walk lie in.
fn count_parts(walk: &mut Walk, size: u32) -> u32
    ensures count { result ≡ length (upto size walk.old) }
    ensures ahead { walk.new ≡ past size walk.old }
{
    let mut left = size;
    let mut count = 0u32;
    while let Some(part) = walk.next_part(left) {
        left -= part.len;
        count += 1;
    }
    count
}

/// Whether none of `n` blocks of this size lies in more than four of the segments.
pub(crate) fn are_few_each(list: &SgList, n: u32, size: u32) -> bool
    requires { InPages (places_in list.now) }
    ensures { result ≡ are_few_each size n list.now }
{
    let mut walk = list.walk(0);
    for _block in 0..n {
        if count_parts(&mut walk, size) > BLOCK_SEGS {
            return false;
        }
    }
    true
}

/// Where a segment begins, in one row of all pages.
fn begin_of(seg: &Seg) -> u64
    ensures { result ≡ begins seg.now }
{
    seg.page as u64 * 0x1_0000_0000 + seg.off as u64
}

fn joined(alloc: Global, body: &[Seg], tuples: &[Seg]) -> Result<Vec<Seg>, AllocError>
    ensures { IfOk result (λ v. v.items ≡ body.now ++ tuples.now) }
{
    let mut segs = Vec::with_capacity(alloc, body.len())?;
    segs.extend_from_slice(body)?;
    segs.extend_from_slice(tuples)?;
    Ok(segs)
}

/// The segments of both lists, by page and offset.
fn sorted(alloc: Global, body: &[Seg], tuples: &[Seg]) -> Result<Vec<Seg>, AllocError>
    requires { All IsSound (body.now ++ tuples.now) }
    ensures same { IfOk result (λ v. IsPermutation (body.now ++ tuples.now) v.items) }
    ensures rises { IfOk result (λ v. Rises v.items) }
{
    let mut segs = joined(alloc, body, tuples)?;
    segs.sort_unstable_by_key(|seg| begin_of(seg));
    Ok(segs)
}

/// Whether two of the segments share a byte. They are sorted, so two neighbours do.
fn do_neighbours_share(segs: &[Seg]) -> bool
    requires { Rises segs.now }
    ensures { result ≡ any_share segs.now }
{
    let mut rest = segs;
    while let [first, second, ..] = rest {
        if first.shares(*second) {
            return true;
        }
        let (_, more) = rest.split_at(1);
        rest = more;
    }
    false
}

/// Whether two of the segments share a byte. The one error is want of memory.
pub(crate) fn do_overlap(alloc: Global, body: &[Seg], tuples: &[Seg]) -> Result<bool, AllocError>
    requires { All IsSound (body.now ++ tuples.now) }
    ensures { IfOk result (λ b. b ≡ do_overlap body.now tuples.now) }
{
    let segs = sorted(alloc, body, tuples)?;
    Ok(do_neighbours_share(segs.as_slice()))
}
