//! Groups carried without a stack.

ghost use Rattle.std.specs.Prelude.{◌≤◌};
ghost use Rattle.std.specs.Vec.{vec_capacity};
ghost use Rattle.dix_adapter.specs.Groups.{IsProtect};
ghost use Rattle.dix_adapter.specs.Room.{HoldsBlocks};

use crate::groups::{adapter, good_of, list, payload, tuples};
use crate::rig::PlainRig;
use bio_core::{Bio, Dir, Fate, Io};
use dix_adapter::{Adapter, Scratch};
use page_pool::{PAGE, PagePool, Seg};
use pi_guard::GuardKind;
use rig_api::Rig;
use std::alloc::{AllocError, Global};
use test_groups::{group_blocks, write_all};

/// The requests, each of so many blocks on two pages, some of the same ones.
const REQUESTS: u32 = 1024;

const BLOCKS: u32 = 16;

/// Each request's tuples have a page of their own behind the pages of the data.
const DATA_PAGES: u32 = 256;

const TUPLE_BYTES: u32 = 128;

/// The most blocks of a group.
const MOST: u32 = 1024;

fn page(page: u32, len: u32) -> Seg {
    Seg { page, off: 0, len }
}

/// The write of this number.
fn request(alloc: Global, k: u32) -> Result<Io, AllocError> {
    let first = k.wrapping_mul(BLOCKS);
    let front = k.wrapping_mul(2) % DATA_PAGES;
    let data = [page(front, PAGE), page(front.wrapping_add(1), PAGE)];
    let tuples = [page(DATA_PAGES.wrapping_add(k), TUPLE_BYTES)];
    Ok(Io {
        dir: Dir::Write,
        first: u64::from(first),
        count: BLOCKS,
        body: list(alloc, &data)?,
        pi: Some(payload(alloc, first, BLOCKS, &tuples)?),
    })
}

fn requests(alloc: Global) -> Result<Vec<Io>, AllocError> {
    let mut ios = Vec::new(alloc);
    for k in 0..REQUESTS {
        ios.push(request(alloc, k)?)?;
    }
    Ok(ios)
}

/// The bio of all blocks of the request of this number.
fn whole(k: u32) -> Bio {
    Bio {
        op: k.wrapping_add(1),
        k: 0,
        count: BLOCKS,
        dev: 1,
        lba: k.wrapping_mul(BLOCKS) as u64,
        dir: Dir::Write,
        segs: 2,
        pi_segs: 1,
    }
}

/// So many of the requests in one group, from this one on.
fn group(alloc: Global, first: u32, count: u32) -> Result<Vec<Bio>, AllocError> {
    let mut bios = Vec::new(alloc);
    for i in 0..count {
        bios.push(whole(first.wrapping_add(i)))?;
    }
    Ok(bios)
}

/// Blocks of zeros, with their tuples.
fn pages(alloc: Global) -> Result<PagePool, AllocError> {
    let mut pool = PagePool::new(alloc, DATA_PAGES + REQUESTS)?;
    for k in 0..REQUESTS {
        let segs = [page(DATA_PAGES.wrapping_add(k), TUPLE_BYTES)];
        if !write_all(
            &mut pool,
            &segs,
            &tuples(alloc, 0, k.wrapping_mul(BLOCKS), BLOCKS)?,
        ) {
            return Err(AllocError);
        }
    }
    Ok(pool)
}

/// What the groups are carried from.
#[derive(Drop)]
struct Host {
    pool: PagePool,
    ios: Vec<Io>,
    scratch: Scratch,
    fates: Vec<Fate>,
    ghost room: { HoldsBlocks 4096 1024 scratch },
    ghost fates_room: { 1024 ≤ vec_capacity fates },
}

impl Host {
    fn new(alloc: Global) -> Result<Host, AllocError> {
        Ok(Host {
            pool: pages(alloc)?,
            ios: requests(alloc)?,
            scratch: Scratch::new(alloc, MOST)?,
            fates: Vec::with_capacity(alloc, MOST as usize)?,
        })
    }
}

/// Carries a group, where it is one, with room made for its record, and answers how many blocks it found good; or only
/// looks at it, and answers how many blocks it has.
fn carry<R: Rig>(
    alloc: Global,
    adapter: &Adapter,
    host: &mut Host,
    req: &[Bio],
    carries: bool,
    rig: &mut R,
) -> Result<u32, AllocError>
    requires { IsProtect adapter.now.protect }
{
    let Some(count) = group_blocks(adapter, &host.pool, &host.ios, req) else {
        return Ok(0);
    };
    if count > MOST || req[0].dev >= rig.devices() {
        return Ok(0);
    }
    if !carries {
        return Ok(count);
    }
    rig.reserve(alloc, 1, count)?;
    adapter.carry(
        &mut host.pool,
        &host.ios,
        req,
        rig,
        &mut host.scratch,
        &mut host.fates,
    );
    Ok(good_of(&host.fates))
}

/// The groups of so many requests.
fn groups(alloc: Global, requests: u32) -> Result<Vec<Vec<Bio>>, AllocError> {
    let mut groups = Vec::new(alloc);
    let mut first = 0;
    for _ in 0..REQUESTS {
        if first < REQUESTS {
            groups.push(group(alloc, first, requests)?)?;
            first = first.wrapping_add(requests);
        }
    }
    Ok(groups)
}

/// Carries all requests once, in groups of so many, or only looks at the groups. Answers how many blocks were found
/// good, or how many there are.
pub(crate) fn carried(alloc: Global, requests: u32, carries: bool) -> Result<u32, AllocError> {
    let groups = groups(alloc, requests)?;
    let adapter = adapter(alloc, GuardKind::Crc);
    let mut host = Host::new(alloc)?;
    let mut rig = PlainRig::new(alloc);
    let mut good = 0u32;
    for req in &groups {
        good = good.wrapping_add(carry(alloc, &adapter, &mut host, req, carries, &mut rig)?);
    }
    Ok(good)
}
