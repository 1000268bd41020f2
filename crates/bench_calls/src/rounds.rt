//! A group carried again and again.

ghost use Rattle.std.specs.Prelude.{◌≡◌, ◌≤◌, ◌<◌};
ghost use Rattle.std.specs.Vec.{vec_capacity};
ghost use Rattle.dix_adapter.specs.Groups.{IsProtect, first_of, size};
ghost use Rattle.bench_calls.specs.Rounds.{IsRound};

use crate::exchanges::{DEVICE, DONE};
use crate::groups::{adapter, good_of, list, payload, tuples};
use crate::targets::{BLOCKS, frames};
use bio_core::{Bio, Dir, Fate, Io};
use dix_adapter::{Adapter, Scratch};
use page_pool::{PAGE, PagePool, Seg};
use pi_guard::GuardKind;
use rig_api::Rig;
use std::alloc::{AllocError, Global};
use test_groups::{group_blocks, write_all};
use test_rig::AnswerRig;

/// The pages of the data, and behind them those of the tuples.
const DATA_PAGES: u32 = 128;

const TUPLE_PAGES: u32 = 2;

#[derive(Clone, Copy)]
pub(crate) struct Way {
    pub(crate) is_write: bool,
    pub(crate) is_ip: bool,
}

impl Way {
    fn kind(self) -> GuardKind {
        if self.is_ip {
            GuardKind::Ip
        } else {
            GuardKind::Crc
        }
    }

    fn dir(self) -> Dir {
        if self.is_write { Dir::Write } else { Dir::Read }
    }

    /// The guard of zeros.
    fn guard(self) -> u16 {
        if self.is_ip { 0xFFFF } else { 0 }
    }
}

fn whole_pages(alloc: Global, first: u32, count: u32) -> Result<Vec<Seg>, AllocError> {
    let mut segs = Vec::new(alloc);
    for i in 0..count {
        segs.push(Seg {
            page: first.wrapping_add(i),
            off: 0,
            len: PAGE,
        })?;
    }
    Ok(segs)
}

/// A request of all blocks, in whole pages.
fn request(alloc: Global, dir: Dir) -> Result<Io, AllocError> {
    Ok(Io {
        dir,
        first: 0,
        count: BLOCKS,
        body: list(alloc, &whole_pages(alloc, 0, DATA_PAGES)?)?,
        pi: Some(payload(
            alloc,
            0,
            BLOCKS,
            &whole_pages(alloc, DATA_PAGES, TUPLE_PAGES)?,
        )?),
    })
}

/// Blocks of zeros, with their tuples.
fn pages(alloc: Global, way: Way) -> Result<PagePool, AllocError> {
    let mut pool = PagePool::new(alloc, DATA_PAGES + TUPLE_PAGES)?;
    let segs = whole_pages(alloc, DATA_PAGES, TUPLE_PAGES)?;
    if write_all(&mut pool, &segs, &tuples(alloc, way.guard(), 0, BLOCKS)?) {
        Ok(pool)
    } else {
        Err(AllocError)
    }
}

/// A group carried, with room made for its record.
fn carry(
    adapter: &Adapter,
    pool: &mut PagePool,
    ios: &[Io],
    req: &[Bio],
    rig: &mut AnswerRig,
    scratch: &mut Scratch,
    fates: &mut Vec<Fate>,
    count: u32,
)
    requires round { IsRound adapter.now pool.old ios.now req.now scratch.old (vec_capacity fates.old) }
    requires count { count ≡ size req.now }
    requires few { count ≤ 1024 }
    requires device { (first_of req.now).dev < (⟦<AnswerRig as Rig>⟧.state rig.old).standing.devices }
    ensures round { IsRound adapter.now pool.new ios.now req.now scratch.new (vec_capacity fates.new) }
    ensures capacity { vec_capacity fates.new ≡ vec_capacity fates.old }
    ensures standing { (⟦<AnswerRig as Rig>⟧.state rig.new).standing ≡ (⟦<AnswerRig as Rig>⟧.state rig.old).standing }
{
    rig.forget(count);
    adapter.carry(pool, ios, req, rig, scratch, fates);
}

/// Carries the group so many times, and answers how many blocks the last one found good.
fn carry_times(
    alloc: Global,
    adapter: &Adapter,
    pool: &mut PagePool,
    ios: &[Io],
    req: &[Bio],
    rig: &mut AnswerRig,
    times: u32,
) -> Result<u32, AllocError>
    requires { IsProtect adapter.now.protect }
{
    let Some(count) = group_blocks(adapter, pool, ios, req) else {
        return Ok(0);
    };
    if count > BLOCKS || req[0].dev >= rig.devices() {
        return Ok(0);
    }
    let mut scratch = Scratch::new(alloc, count)?;
    let mut fates = Vec::with_capacity(alloc, count as usize)?;
    for _ in 0..times {
        carry(
            adapter,
            pool,
            ios,
            req,
            rig,
            &mut scratch,
            &mut fates,
            count,
        );
    }
    Ok(good_of(&fates))
}

/// Carries all blocks so many times.
pub(crate) fn carried(alloc: Global, way: Way, times: u32) -> Result<u32, AllocError> {
    let mut pool = pages(alloc, way)?;
    let ios = [request(alloc, way.dir())?];
    let req = [Bio {
        op: 1,
        k: 0,
        count: BLOCKS,
        dev: DEVICE,
        lba: 0,
        dir: way.dir(),
        segs: DATA_PAGES,
        pi_segs: TUPLE_PAGES,
    }];
    let mut rig = AnswerRig::new(alloc, DONE, frames(alloc)?)?;
    carry_times(
        alloc,
        &adapter(alloc, way.kind()),
        &mut pool,
        &ios,
        &req,
        &mut rig,
        times,
    )
}
