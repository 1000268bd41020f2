//! Where the blocks of the group lie in the pages: two requests over scattered segments.

ghost use Rattle.std.specs.Prelude.{◌≤◌};

use crate::blocks::frame_of;
use crate::case::Case;
use bio_core::{Dir, Io};
use integrity_payload::{Owner, Payload};
use page_pool::{PAGE, PagePool, Seg, SgList};
use std::alloc::{AllocError, Global};
use test_groups::{list_of, write_all};

/// The pages of a scene: those of a write, and behind them those of a read.
const PAGES: u32 = 16;

const READ_PAGES: u32 = 8;

/// The group: blocks 1 and 2 of op 1, and block 0 of op 2.
pub(crate) const LABELS: [(u32, u32); 3] = [(1, 1), (1, 2), (2, 0)];

fn seg(page: u32, off: u32, len: u32) -> Seg {
    Seg { page, off, len }
}

fn first_page(dir: Dir) -> u32
    ensures { result ≤ 8 }
{
    if dir == Dir::Read { READ_PAGES } else { 0 }
}

/// Where the data of op 1 lies, of three blocks in segments of odd lengths.
fn body_of_1(page: u32, size: u32) -> [Seg; 4]
    requires { page ≤ 8 }
{
    if size == 512 {
        [
            seg(page, 0, 700),
            seg(page + 1, 100, 1),
            seg(page + 2, 50, 831),
            seg(page + 3, 4092, 4),
        ]
    } else {
        [
            seg(page, 0, 4096),
            seg(page + 1, 5, 4001),
            seg(page + 2, 0, 4091),
            seg(page + 3, 100, 100),
        ]
    }
}

/// And that of op 2, of two blocks.
fn body_of_2(page: u32, size: u32) -> [Seg; 2]
    requires { page ≤ 8 }
{
    [seg(page + 4, 0, size), seg(page + 5, 0, size)]
}

fn tuples_of_1(page: u32) -> Seg
    requires { page ≤ 8 }
{
    seg(page + 6, 8, 24)
}

fn tuples_of_2(page: u32) -> Seg
    requires { page ≤ 8 }
{
    seg(page + 6, 40, 16)
}

fn list(alloc: Global, segs: &[Seg]) -> Result<SgList, AllocError> {
    match list_of(alloc, segs)? {
        Some(list) => Ok(list),
        None => Err(AllocError),
    }
}

fn payload(
    alloc: Global,
    case: Case,
    seed: u64,
    count: u32,
    at: Seg,
) -> Result<Option<Payload>, AllocError> {
    if !case.dix {
        return Ok(None);
    }
    Ok(Some(Payload {
        seed,
        count,
        tuples: list(alloc, &[at])?,
        owner: Owner::App,
        app: 0,
    }))
}

/// A request whose data and tuples lie there.
fn request(
    alloc: Global,
    case: Case,
    dir: Dir,
    blocks: (u64, u32),
    body: &[Seg],
    tuples: Seg,
) -> Result<Io, AllocError> {
    let (first, count) = blocks;
    let pi = payload(alloc, case, first, count, tuples)?;
    Ok(Io {
        dir,
        first,
        count,
        body: list(alloc, body)?,
        pi,
    })
}

/// The requests of ops 1 and 2, whose first virtual blocks are far from one another.
pub(crate) fn requests(alloc: Global, case: Case, dir: Dir) -> Result<[Io; 2], AllocError> {
    let page = first_page(dir);
    let body = body_of_1(page, case.size);
    let first = request(alloc, case, dir, (100, 3), &body, tuples_of_1(page))?;
    let body = body_of_2(page, case.size);
    let second = request(alloc, case, dir, (7, 2), &body, tuples_of_2(page))?;
    Ok([first, second])
}

/// Adds the segments of `len` bytes from byte `at` of these on.
fn add_cut(cut: &mut Vec<Seg>, segs: &[Seg], at: u32, len: u32) -> Result<(), AllocError> {
    let mut skip = at;
    let mut left = len;
    for s in segs {
        let skipped = skip.min(s.len);
        let taken = left.min(s.len - skipped);
        if taken > 0 {
            cut.push(seg(s.page, s.off.wrapping_add(skipped), taken))?;
        }
        skip -= skipped;
        left -= taken;
    }
    Ok(())
}

/// Where block `i` of the group lies in the pages of this way: its data, and behind it its tuple where the host has
/// tuples.
fn places(alloc: Global, case: Case, dir: Dir, i: u32) -> Result<Vec<Seg>, AllocError> {
    let page = first_page(dir);
    let (op, k) = LABELS[i as usize % 3];
    let at = k.wrapping_mul(case.size);
    let mut segs = Vec::new(alloc);
    let tuples = if op == 1 {
        add_cut(&mut segs, &body_of_1(page, case.size), at, case.size)?;
        tuples_of_1(page)
    } else {
        add_cut(&mut segs, &body_of_2(page, case.size), at, case.size)?;
        tuples_of_2(page)
    };
    if case.dix {
        add_cut(&mut segs, &[tuples], k.wrapping_mul(8), 8)?;
    }
    Ok(segs)
}

/// Writes the blocks of these words into the pages of this way: the first word's is block 0 of the group, and `-` is
/// none. A block without a tuple, where the host has tuples, is not written.
pub(crate) fn put_all(
    alloc: Global,
    case: Case,
    pool: &mut PagePool,
    dir: Dir,
    words: &str,
) -> Result<(), AllocError> {
    let mut i = 0u32;
    for word in words.split(' ') {
        if word != "-" {
            let frame = frame_of(alloc, word, case.size)?;
            let segs = places(alloc, case, dir, i)?;
            write_all(pool, &segs, &frame);
        }
        i = i.wrapping_add(1);
    }
    Ok(())
}

/// Pages of which each byte is EEh.
pub(crate) fn pages(alloc: Global) -> Result<PagePool, AllocError> {
    let mut pool = PagePool::new(alloc, PAGES)?;
    let mut all = Vec::new(alloc);
    all.resize(PAGE as usize, 0xEE)?;
    for page in 0..PAGES {
        write_all(&mut pool, &[seg(page, 0, PAGE)], &all);
    }
    Ok(pool)
}

/// Whether two pools have the same bytes.
pub(crate) fn are_same(a: &PagePool, b: &PagePool) -> bool {
    for page in 0..PAGES {
        let whole = Seg {
            page,
            off: 0,
            len: PAGE,
        };
        if page as usize >= a.pages() || page as usize >= b.pages() {
            return false;
        }
        if a.part(whole) != b.part(whole) {
            return false;
        }
    }
    true
}
