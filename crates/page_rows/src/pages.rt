//! Bytes of pages that rows write and look at.

ghost use Rattle.std.specs.Prelude.{◌≡◌, ◌+◌, ◌≤◌, true};
ghost use Rattle.page_pool.specs.Pages.{AllLieIn};
ghost use Rattle.page_pool.specs.Places.{NoneTwice, range_of, total};

use crate::kinds::seg_of;
use crate::scene::Scene;
use page_pool::{PagePool, Seg, SgList, a_range_is_of_its_list};
use std::alloc::{AllocError, Global};
use test_groups::{all_lie, lies, none_twice};
use test_table::{Words, hex_of};

/// Whether the list lies in the pool and has so many bytes from this one on.
fn is_range(pool: &PagePool, list: &SgList, at: u32, len: u32) -> bool
    ensures lie { result ≡ true → AllLieIn pool.now list.now }
    ensures range { result ≡ true → at + len ≤ total list.now }
{
    all_lie(pool, list.as_slice()) && at as u64 + len as u64 <= list.total() as u64
}

/// The same of a range that may be written.
fn is_open(pool: &PagePool, list: &SgList, at: u32, len: u32) -> bool
    ensures lie { result ≡ true → AllLieIn pool.now list.now }
    ensures once { result ≡ true → NoneTwice (range_of list.now at len) }
    ensures range { result ≡ true → at + len ≤ total list.now }
{
    // By a law.
    a_range_is_of_its_list();
    none_twice(list.as_slice()) && is_range(pool, list, at, len)
}

/// Writes bytes at a segment that has as many and lies in the pool.
pub(crate) fn put(pool: &mut PagePool, seg: Seg, bytes: &[u8]) -> bool {
    let may = lies(pool, seg) && bytes.len() == seg.len as usize;
    if may {
        pool.part_mut(seg).copy_from_slice(bytes);
    }
    may
}

/// Writes bytes along the list from this one on.
pub(crate) fn scatter(pool: &mut PagePool, list: &SgList, at: u32, bytes: &[u8]) -> bool {
    if bytes.len() > u32::MAX as usize {
        return false;
    }
    let may = is_open(pool, list, at, bytes.len() as u32);
    if may {
        pool.scatter(list, at, bytes);
    }
    may
}

/// Clears the bytes of a range.
pub(crate) fn zero(pool: &mut PagePool, list: &SgList, at: u32, len: u32) -> bool {
    let may = is_open(pool, list, at, len);
    if may {
        pool.zero(list, at, len);
    }
    may
}

/// The bytes of a segment.
fn part(alloc: Global, pool: &PagePool, seg: Seg) -> Result<Option<String>, AllocError> {
    if !lies(pool, seg) {
        return Ok(None);
    }
    Ok(Some(hex_of(alloc, pool.part(seg))?))
}

/// The parts of a range.
fn parts(
    alloc: Global,
    pool: &PagePool,
    list: &SgList,
    at: u32,
    len: u32,
) -> Result<Option<String>, AllocError> {
    if !is_range(pool, list, at, len) {
        return Ok(None);
    }
    let mut text = String::new(alloc);
    for part in pool.parts(list, at, len) {
        if !text.is_empty() {
            text.push_str(" ")?;
        }
        text.push_str(hex_of(alloc, part)?.as_str())?;
    }
    Ok(Some(text))
}

/// How many parts a range has.
fn count(
    alloc: Global,
    pool: &PagePool,
    list: &SgList,
    at: u32,
    len: u32,
) -> Result<Option<String>, AllocError> {
    if !is_range(pool, list, at, len) {
        return Ok(None);
    }
    let mut count = 0u32;
    for _ in pool.parts(list, at, len) {
        count = count.saturating_add(1);
    }
    Ok(Some(format!(in alloc; "{count}")?))
}

/// The bytes of a range, copied out over others.
fn gathered(
    alloc: Global,
    pool: &PagePool,
    list: &SgList,
    at: u32,
    len: u32,
) -> Result<Option<String>, AllocError> {
    if !is_range(pool, list, at, len) {
        return Ok(None);
    }
    let mut into = vec![in alloc; 9u8; len as usize]?;
    pool.gather(list, at, &mut into);
    Ok(Some(hex_of(alloc, &into)?))
}

/// How many segments have bytes of a range.
fn segs(alloc: Global, list: &SgList, at: u32, len: u32) -> Result<Option<String>, AllocError> {
    if at as u64 + len as u64 > list.total() as u64 {
        return Ok(None);
    }
    let count = list.segs_in(at, len);
    Ok(Some(format!(in alloc; "{count}")?))
}

fn total_text(alloc: Global, list: &SgList) -> Result<Option<String>, AllocError> {
    let total = list.total();
    Ok(Some(format!(in alloc; "{total}")?))
}

fn shares(alloc: Global, words: &str) -> Result<Option<String>, AllocError> {
    let mut words = Words::of(words);
    let first = seg_of(words.word());
    let shares = first.shares(seg_of(words.word()));
    Ok(Some(format!(in alloc; "{shares}")?))
}

/// What a call to the pages or to the request's list comes to.
pub(crate) fn answer(
    alloc: Global,
    scene: &Scene,
    word: &str,
    rest: &str,
) -> Result<Option<String>, AllocError> {
    let mut words = Words::of(rest);
    let (at, len) = (words.small(), words.small());
    let (pool, list) = (&scene.pool, &scene.io.body);
    match word {
        "part" => part(alloc, pool, seg_of(rest)),
        "parts" => parts(alloc, pool, list, at, len),
        "count" => count(alloc, pool, list, at, len),
        "gather" => gathered(alloc, pool, list, at, len),
        "segs" => segs(alloc, list, at, len),
        "total" => total_text(alloc, list),
        "shares" => shares(alloc, rest),
        _ => Ok(None),
    }
}
