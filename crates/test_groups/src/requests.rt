//! The requests of a group.

ghost use Rattle.std.specs.Prelude.{◌≡◌, true};
ghost use Rattle.page_pool.specs.Pages.{AllLieIn};
ghost use Rattle.integrity_payload.specs.Payloads.{IsPayload};
ghost use Rattle.bio_core.specs.declared.request.Dir.TheVariants.{Read};
ghost use Rattle.dix_adapter.specs.Groups.{IsCarriedRequest};
ghost use Rattle.dix_adapter.specs.Walking.{HasHost, IsOnce, TuplesOnce, Walkable, WalksTuples};

use crate::bytes::all_lie;
use crate::separate::none_twice;
use crate::tuples;
use bio_core::{Dir, Io};
use dix_adapter::Adapter;
use integrity_payload::Payload;
use page_pool::PagePool;

fn is_payload(pool: &PagePool, count: u32, pi: &Payload) -> bool
    ensures payload { result ≡ true → IsPayload pi.now }
    ensures count { result ≡ true → pi.now.count ≡ count }
    ensures lies { result ≡ true → AllLieIn pool.now pi.now.tuples }
{
    pi.count == count && tuples::is_payload(pi) && all_lie(pool, pi.tuples.as_slice())
}

fn walks_tuples(pool: &PagePool, count: u32, pi: &Option<Payload>) -> bool
    ensures { result ≡ true → WalksTuples pool.now count pi.now }
{
    match pi {
        Some(pi) => is_payload(pool, count, pi),
        None => true,
    }
}

fn has_host(dix: bool, pi: &Option<Payload>) -> bool
    ensures { result ≡ true → HasHost dix pi.now }
{
    match pi {
        Some(_) => dix,
        None => !dix,
    }
}

fn tuples_once(pi: &Option<Payload>) -> bool
    ensures { result ≡ true → TuplesOnce pi.now }
{
    match pi {
        Some(pi) => none_twice(pi.tuples.as_slice()),
        None => true,
    }
}

fn walks(pool: &PagePool, io: &Io) -> bool
    ensures { result ≡ true → Walkable pool.now io.now }
{
    io.count > 0 && all_lie(pool, io.body.as_slice()) && walks_tuples(pool, io.count, &io.pi)
}

fn once(io: &Io) -> bool
    ensures { result ≡ true → IsOnce io.now }
{
    none_twice(io.body.as_slice()) && tuples_once(&io.pi)
}

fn is_written_or_once(io: &Io) -> bool
    ensures { result ≡ true → io.now.dir ≡ Read → IsOnce io.now }
{
    io.dir == Dir::Write || once(io)
}

/// Whether the request may stand in a group of blocks of this size.
pub(crate) fn is_request(adapter: &Adapter, pool: &PagePool, bytes: u32, io: &Io) -> bool
    ensures { result ≡ true → IsCarriedRequest adapter.now pool.now bytes io.now }
{
    walks(pool, io)
        && io.block_size() == bytes
        && is_written_or_once(io)
        && has_host(adapter.dix, &io.pi)
        && io.first <= u64::MAX - io.count as u64
}
