//! A queue that joins groups.

ghost use Rattle.std.specs.Prelude.{◌≡◌, ◌+◌, ◌<◌, ◌≤◌, length};
ghost use Rattle.std.specs.Vec.{vec_capacity};

use bio_core::{Bio, Dir};
use merge_queue::{DeviceQueue, Limits};
use std::alloc::{AllocError, Global};

/// One block at this address.
fn block_at(lba: u64) -> Bio
    ensures address { result.lba ≡ lba }
    ensures one { result.count ≡ 1 }
{
    Bio {
        op: 1,
        k: 0,
        count: 1,
        dev: 0,
        lba,
        dir: Dir::Write,
        segs: 1,
        pi_segs: 1,
    }
}

fn put_block(queue: &mut DeviceQueue, room: u32, lba: u32)
    requires { queue.old.room ≡ room }
    ensures { queue.new.room ≡ room }
{
    if queue.bios() < room {
        queue.put(&[block_at(lba as u64)]);
    }
}

/// The first two of these groups, or the last two.
fn pair_at(groups: u32, front: bool) -> (u32, u32)
    requires { 2 ≤ groups }
    ensures next { result.1 ≡ result.0 + 1 }
    ensures within { result.1 < groups }
{
    if front {
        (0, 1)
    } else {
        (groups - 2, groups - 1)
    }
}

fn join_pair(queue: &mut DeviceQueue, front: bool, lim: &Limits)
    ensures { queue.new.room ≡ queue.old.room }
{
    let groups = queue.groups();
    if groups < 2 {
        return;
    }
    let (i, j) = pair_at(groups, front);
    if queue.joinable(i, j, lim) {
        queue.join(i, j);
    }
}

fn take_first(queue: &mut DeviceQueue, room: u32, into: &mut Vec<Bio>)
    requires empty { length into.old.items ≡ 0 }
    requires room { room ≤ vec_capacity into.old }
{
    if queue.groups() > 0 && queue.bios() <= room {
        queue.take(0, into);
    }
}

/// Puts so many groups of one block into a queue, a power of two, in a scattered order of addresses; joins them from both
/// ends to one; and takes it. Answers how many bios it had.
pub(crate) fn queue_run(alloc: Global, groups: u32) -> Result<u32, AllocError> {
    let lim = Limits {
        max_blocks: u32::MAX,
        max_segs: u32::MAX,
        max_pi_segs: u32::MAX,
    };
    let mut queue = DeviceQueue::new(alloc, groups)?;
    let mut taken = Vec::with_capacity(alloc, groups as usize)?;
    // An odd number, so that each address below a power of two comes once, and far from the one before.
    let mut lba = 0u32;
    for _k in 0..groups {
        put_block(&mut queue, groups, lba);
        lba = (lba.wrapping_add(7919)) % groups;
    }
    for k in 0..groups {
        join_pair(&mut queue, k % 2 == 0, &lim);
    }
    take_first(&mut queue, groups, &mut taken);
    Ok(u32::try_from(taken.len()).unwrap_or(u32::MAX))
}
