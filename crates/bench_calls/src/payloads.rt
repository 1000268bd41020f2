//! The tuples of a request, made again and again.

ghost use Rattle.std.specs.Prelude.{◌≡◌, ◌+◌, ◌≤◌, IfOk};
ghost use Rattle.bench_calls.specs.Requests.{IsRequest, whole_pages};

use integrity_payload::{Owner, Payload};
use page_pool::{PAGE, PagePool, Seg, SgList};
use pi_guard::GuardKind;
use pi_tuple::PiType;
use smallvec::SmallVec;
use std::alloc::{AllocError, Global};

// The data of 2,048 blocks of 512 bytes, and behind them their tuples.
const BLOCKS: u32 = 2048;

const DATA_PAGES: u32 = 256;

const TUPLE_PAGES: u32 = 4;

/// The list of so many whole pages, from this page on.
fn whole_pages(alloc: Global, first: u32, count: u32) -> Result<SgList, AllocError>
    requires { first + count ≤ 1024 }
    ensures { IfOk result (λ sg. sg ≡ whole_pages first count) }
{
    let mut segs = SmallVec::new(alloc);
    for i in 0..count {
        segs.push(Seg {
            page: first + i,
            off: 0,
            len: PAGE,
        })?;
    }
    Ok(SgList::from_segs(segs))
}

/// A request of blocks of zeros.
#[derive(Drop)]
struct Request {
    pool: PagePool,
    body: SgList,
    payload: Payload,
}

impl Request {
    fn new(alloc: Global) -> Result<Request, AllocError>
        ensures { IfOk result IsRequest }
    {
        Ok(Request {
            pool: PagePool::new(alloc, DATA_PAGES + TUPLE_PAGES)?,
            body: whole_pages(alloc, 0, DATA_PAGES)?,
            payload: Payload {
                seed: 0,
                count: BLOCKS,
                tuples: whole_pages(alloc, DATA_PAGES, TUPLE_PAGES)?,
                owner: Owner::Block,
                app: 0,
            },
        })
    }

    /// Makes the tuples, and answers the last one's guard.
    fn last_guard(&mut self, kind: GuardKind) -> u16
        requires { IsRequest self.old }
        ensures { IsRequest self.new }
    {
        self.payload
            .generate(&mut self.pool, &self.body, kind, PiType::One);
        self.payload.tuple_at(&self.pool, BLOCKS - 1).guard
    }
}

/// Makes the tuples so many times, at least once, and answers the last one's guard.
pub(crate) fn last_guard(alloc: Global, kind: GuardKind, times: u32) -> Result<u16, AllocError> {
    let mut request = Request::new(alloc)?;
    let mut guard = request.last_guard(kind);
    for _i in 1..times {
        guard = request.last_guard(kind);
    }
    Ok(guard)
}
