//! Bytes of pages, where there are such.

ghost use Rattle.std.specs.Prelude.{◌≡◌, ◌+◌, ◌≤◌, ◌<◌, ◌^◌, true, false, map, length, IfOk, IfSome, IsSome};
ghost use Rattle.page_pool.specs.Cells.{cell, flat, scatter};
ghost use Rattle.page_pool.specs.Pages.{AllLieIn, LiesIn};
ghost use Rattle.page_pool.specs.Places.{places_in, total};

use page_pool::{PAGE, PagePool, Seg, SgList};
use smallvec::SmallVec;
use std::alloc::{AllocError, Global};

/// Whether the segment lies in the pool.
pub fn lies(pool: &PagePool, s: Seg) -> bool
    ensures yes { result ≡ true → LiesIn pool.now s }
    ensures no { LiesIn pool.now s → result ≡ true }
{
    (s.page as usize) < pool.pages() && s.off as u64 + s.len as u64 <= PAGE as u64
}

/// Whether all segments lie in the pool.
pub fn all_lie(pool: &PagePool, segs: &[Seg]) -> bool
    ensures yes { result ≡ true → AllLieIn pool.now segs.now }
    ensures no { AllLieIn pool.now segs.now → result ≡ true }
{
    for s in segs {
        if !lies(pool, *s) {
            return false;
        }
    }
    true
}
/// Whether the segments have at most so many bytes.
fn fit(segs: &[Seg], most: usize) -> bool
    ensures yes { result ≡ true → total segs.now ≤ most }
    ensures no { result ≡ false → most < total segs.now }
{
    let mut left = most;
    for s in segs {
        if s.len as usize > left {
            return false;
        }
        left -= s.len as usize;
    }
    true
}

/// The list of these segments, or `None` where they have 2^32 bytes or more.
pub fn list_of(alloc: Global, segs: &[Seg]) -> Result<Option<SgList>, AllocError>
    ensures list { IfOk result (λ found. IfSome found (λ list. list ≡ segs.now)) }
    ensures short { IfOk result (λ found. total segs.now < 2 ^ 32 → IsSome found) }
    ensures long { IfOk result (λ found. IsSome found → total segs.now < 2 ^ 32) }
{
    if !fit(segs, u32::MAX as usize) {
        return Ok(None);
    }
    Ok(Some(SgList::from_segs(SmallVec::from_slice(alloc, segs)?)))
}

/// Writes the bytes along the segments, as many as these have, and answers true. Where a segment doesn't lie in the
/// pool, or there are too few bytes, it writes nothing and answers false.
pub fn write_all(pool: &mut PagePool, segs: &[Seg], bytes: &[u8]) -> bool
    ensures there { AllLieIn pool.old segs.now → total segs.now ≤ length bytes.now → result ≡ true }
    ensures lie { result ≡ true → AllLieIn pool.old segs.now }
    ensures enough { result ≡ true → total segs.now ≤ length bytes.now }
    ensures wrote { result ≡ true → flat pool.new ≡ scatter (map cell (places_in segs.now)) bytes.now (flat pool.old) }
    ensures pages { length pool.new ≡ length pool.old }
    ensures kept { result ≡ false → pool.new ≡ pool.old }
{
    if !all_lie(pool, segs) || !fit(segs, bytes.len()) {
        return false;
    }
    write_each(pool, segs, bytes);
    true
}

fn write_each(pool: &mut PagePool, segs: &[Seg], bytes: &[u8])
    requires lie { AllLieIn pool.old segs.now }
    requires enough { total segs.now ≤ length bytes.now }
    ensures wrote { flat pool.new ≡ scatter (map cell (places_in segs.now)) bytes.now (flat pool.old) }
    ensures pages { length pool.new ≡ length pool.old }
{
    let mut rest = bytes;
    for s in segs {
        let _pages = pool.pages();
        let (front, back) = rest.split_at(s.len as usize);
        pool.write_part(*s, front);
        rest = back;
    }
}
