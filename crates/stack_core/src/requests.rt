//! The requests that ops are.

ghost use Rattle.std.specs.Prelude.{◌≡◌, ◌+◌, ◌<◌, ◌≤◌, ◌^◌, IfOk};
ghost use Rattle.std.specs.Option.{ForSome};
ghost use Rattle.stack_walk_laws.specs.Sheets.{no_io};
ghost use Rattle.stack_walk_laws.specs.Requests.{of_app, of_block, own_blocks, pages_for, private_tuples, request_of, sealed, tuple_page};
ghost use Rattle.bio_core.specs.declared.TheConstants.{MOST_BLOCKS};

use bio_core::{Dir, Io};
use integrity_payload::{Owner, Payload};
use page_pool::{PAGE, Seg, SgList};
use pi_tuple::TUPLE;
use smallvec::SmallVec;
use stack_ops::Op;
use std::alloc::{AllocError, Global};

/// How many tuples fill a page.
const TUPLES: u32 = 512;

/// How many pages hold the tuples of so many blocks.
pub(crate) fn pages_for(count: u32) -> u32
    ensures { result ≡ pages_for count }
{
    count.div_ceil(TUPLES)
}

/// How many blocks an op has whose tuples the block layer makes.
pub(crate) fn own_blocks(op: &Op) -> u32
    ensures { result ≡ own_blocks op.now }
{
    match op {
        Op::Write { n, .. } | Op::Fetch { n, .. } => *n,
        _ => 0,
    }
}

fn copy_of(alloc: Global, list: &SgList) -> Result<SgList, AllocError>
    ensures { IfOk result (λ copy. copy ≡ list.now) }
{
    Ok(SgList::from_segs(SmallVec::from_slice(alloc, list.as_slice())?))
}

/// The places of so many tuples in pages of their own, from this page on.
fn private_tuples(alloc: Global, page: u32, count: u32) -> Result<SgList, AllocError>
    requires few { count ≤ MOST_BLOCKS }
    requires pages { page + 32 < 2 ^ 32 }
    ensures { IfOk result (λ list. list ≡ private_tuples page count) }
{
    let mut segs = SmallVec::new(alloc);
    for i in 0..pages_for(count) {
        segs.push(tuple_page(page, count, i))?;
    }
    Ok(SgList::from_segs(segs))
}

/// The i-th of the pages that hold the tuples of so many blocks.
fn tuple_page(page: u32, count: u32, i: u32) -> Seg
    requires few { count ≤ MOST_BLOCKS }
    requires pages { page + 32 < 2 ^ 32 }
    requires within { i < pages_for count }
    ensures { result ≡ tuple_page page count i }
{
    Seg {
        page: page + i,
        off: 0,
        len: (TUPLE as u32 * (count - TUPLES * i)).min(PAGE),
    }
}

/// A request whose tuples the block layer makes and checks.
fn of_block(
    alloc: Global,
    dir: Dir,
    v: u64,
    n: u32,
    body: &SgList,
    app: u16,
    page: Option<u32>,
) -> Result<Io, AllocError>
    requires few { n ≤ MOST_BLOCKS }
    requires pages { ForSome page (λ p. p + 32 < 2 ^ 32) }
    ensures { IfOk result (λ io. io ≡ of_block dir v n body.now app page) }
{
    let body = copy_of(alloc, body)?;
    let pi = match page {
        Some(page) => Some(Payload {
            seed: v,
            count: n,
            tuples: private_tuples(alloc, page, n)?,
            owner: Owner::Block,
            app,
        }),
        None => None,
    };
    Ok(Io {
        dir,
        first: v,
        count: n,
        body,
        pi,
    })
}

/// A request whose tuples the application makes and checks.
fn of_app(
    alloc: Global,
    dir: Dir,
    v: u64,
    n: u32,
    body: &SgList,
    tuples: &SgList,
) -> Result<Io, AllocError>
    ensures { IfOk result (λ io. io ≡ of_app dir v n body.now tuples.now) }
{
    Ok(Io {
        dir,
        first: v,
        count: n,
        body: copy_of(alloc, body)?,
        pi: Some(Payload {
            seed: v,
            count: n,
            tuples: copy_of(alloc, tuples)?,
            owner: Owner::App,
            app: 0,
        }),
    })
}

/// No request.
fn none(alloc: Global) -> Io
    ensures { result ≡ no_io }
{
    Io {
        dir: Dir::Read,
        first: 0,
        count: 0,
        body: SgList::from_segs(SmallVec::new(alloc)),
        pi: None,
    }
}

/// The request that an op is, with this first page for tuples of the block layer, if there are any; one of no blocks
/// for an op that is none.
pub(crate) fn request_of(alloc: Global, op: &Op, page: Option<u32>) -> Result<Io, AllocError>
    requires few { own_blocks op.now ≤ MOST_BLOCKS }
    requires pages { ForSome page (λ p. p + 32 < 2 ^ 32) }
    ensures { IfOk result (λ io. io ≡ request_of op.now page) }
{
    match op {
        Op::Write { v, n, body, app } => of_block(alloc, Dir::Write, *v, *n, body, *app, page),
        Op::Fetch { v, n, body } => of_block(alloc, Dir::Read, *v, *n, body, 0, page),
        Op::WritePi { v, n, body, tuples } => of_app(alloc, Dir::Write, *v, *n, body, tuples),
        Op::FetchPi { v, n, body, tuples } => of_app(alloc, Dir::Read, *v, *n, body, tuples),
        _ => Ok(none(alloc)),
    }
}

/// The tuples that a `seal` makes.
pub(crate) fn sealed(
    alloc: Global,
    n: u32,
    tuples: &SgList,
    app: u16,
    rtag: u32,
) -> Result<Payload, AllocError>
    ensures { IfOk result (λ pi. pi ≡ sealed n tuples.now app rtag) }
{
    Ok(Payload {
        seed: rtag as u64,
        count: n,
        tuples: copy_of(alloc, tuples)?,
        owner: Owner::App,
        app,
    })
}
