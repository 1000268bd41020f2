//! What is wrong with the segments of a line.

ghost use Rattle.std.specs.Prelude.{◌≡◌, ◌+◌, ◌≤◌, ◌<◌, ◌^◌, length, nat_le, not};
ghost use Rattle.std.specs.List.{position};
ghost use Rattle.page_pool.specs.Places.{total};
ghost use Rattle.pi_tuple.specs.declared.TheConstants.{LARGEST_BLOCK};
ghost use Rattle.script_text.specs.Segments.{are_whole_tuples, is_inside};
ghost use Rattle.fault_marks.specs.Closer.{both_closer, data_closer, list_detail, or_closer, or_detail, other_total, outside, seg_detail, tuples_closer};

use crate::closer::{Closer, at_word};
use crate::detail::Detail;
use page_pool::{PAGE, Seg};
use pi_tuple::TUPLE;

/// A list has at most this many segments.
pub(crate) const MOST_SEGS: usize = 512;

/// How many pages a script has, and how long its blocks are.
#[derive(Clone, Copy)]
pub(crate) struct Sizes {
    pub(crate) pages: u32,
    pub(crate) block: u32,
}

/// Whether a segment has bytes, and they lie in one of so many pages.
pub(crate) fn is_inside(seg: Seg, pages: u32) -> bool
    ensures { result ≡ is_inside pages seg }
{
    seg.page < pages && seg.len > 0 && seg.off <= PAGE && seg.len <= PAGE - seg.off
}

/// Why a segment doesn't lie inside one of so many pages.
pub(crate) fn seg_detail(seg: Seg, pages: u32) -> Detail
    ensures { result ≡ seg_detail pages seg }
{
    if pages <= seg.page {
        return Detail::NoPage { pages };
    }
    if seg.len == 0 {
        return Detail::NoBytes;
    }
    Detail::PastPage {
        end: u64::from(seg.off) + u64::from(seg.len),
    }
}

fn place_outside(segs: &[Seg], pages: u32) -> Option<usize>
    ensures { result ≡ position (λ s. not (is_inside pages s)) segs.now }
{
    segs.iter().position(|seg| !is_inside(*seg, pages))
}

/// The first segment that doesn't lie inside.
fn outside(segs: &[Seg], pages: u32) -> Option<Detail>
    ensures { result ≡ outside pages segs.now }
{
    match place_outside(segs, pages) {
        Some(i) => Some(seg_detail(segs[i], pages)),
        None => None,
    }
}

/// The bytes of all segments.
fn total_of(segs: &[Seg]) -> u64
    requires { length segs.now ≤ 512 }
    ensures { result ≡ total segs.now }
{
    let mut bytes = 0u64;
    for seg in segs {
        bytes += u64::from(seg.len);
    }
    bytes
}

/// Segments that have other bytes together than are wanted.
fn other_total(segs: &[Seg], wanted: u64) -> Option<Detail>
    ensures { result ≡ other_total wanted segs.now }
{
    if segs.len() > MOST_SEGS {
        return None;
    }
    let given = total_of(segs);
    if given == wanted {
        return None;
    }
    Some(Detail::OtherTotal { wanted, given })
}

/// What is wrong with a list: a segment outside, or the bytes of all.
fn list_detail(segs: &[Seg], pages: u32, wanted: u64) -> Option<Detail>
    ensures { result ≡ list_detail pages wanted segs.now }
{
    match outside(segs, pages) {
        Some(detail) => Some(detail),
        None => other_total(segs, wanted),
    }
}

fn are_whole_tuples(segs: &[Seg]) -> bool
    ensures { result ≡ are_whole_tuples segs.now }
{
    segs.iter().all(|seg| seg.len % TUPLE as u32 == 0)
}

/// What is wrong with the data of `n` blocks, which is this word.
pub(crate) fn data_closer(body: &[Seg], n: u32, sizes: Sizes, word: usize) -> Closer
    ensures { result ≡ data_closer sizes.pages sizes.block n body.now word }
{
    let wanted = u64::from(sizes.block) * u64::from(n);
    match list_detail(body, sizes.pages, wanted) {
        Some(detail) => at_word(detail, word),
        None => at_word(Detail::Scattered, word),
    }
}

/// What is wrong with the tuples of `n` blocks, which are the word behind the data's.
fn tuples_closer(tuples: &[Seg], n: u32, pages: u32, word: usize) -> Closer
    requires { word < 8 }
    ensures { result ≡ tuples_closer pages n tuples.now word }
{
    if let Some(detail) = list_detail(tuples, pages, TUPLE as u64 * u64::from(n)) {
        return at_word(detail, word + 1);
    }
    if are_whole_tuples(tuples) {
        at_word(Detail::Scattered, word)
    } else {
        at_word(Detail::NoWholeTuple, word + 1)
    }
}

/// What is wrong with data and tuples.
pub(crate) fn both_closer(body: &[Seg], tuples: &[Seg], n: u32, sizes: Sizes, word: usize) -> Closer
    requires { word < 8 }
    ensures { result ≡ both_closer sizes.pages sizes.block n body.now tuples.now word }
{
    let wanted = u64::from(sizes.block) * u64::from(n);
    match list_detail(body, sizes.pages, wanted) {
        Some(detail) => at_word(detail, word),
        None => tuples_closer(tuples, n, sizes.pages, word),
    }
}
