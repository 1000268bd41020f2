//! Groups.

ghost use Rattle.std.specs.Prelude.{◌≡◌, ℕ, ◌+◌, true, IfSome};
ghost use Rattle.dix_adapter.specs.Groups.{IsBio, IsCarriedGroup, size};

use crate::requests::is_request;
use bio_core::{Bio, Io};
use dix_adapter::Adapter;
use page_pool::PagePool;

/// Whether the bio may stand in a group of blocks of this size that begins with `first`.
fn is_bio(
    adapter: &Adapter,
    pool: &PagePool,
    bytes: u32,
    ios: &[Io],
    first: &Bio,
    bio: &Bio,
) -> bool
    ensures { result ≡ true → IsBio adapter.now pool.now bytes ios.now first.now.dev first.now.dir bio.now }
{
    if bio.op == 0 || bio.op as usize > ios.len() {
        return false;
    }
    let io = &ios[bio.op as usize - 1];
    bio.count >= 1
        && bio.k as u64 + bio.count as u64 <= io.count as u64
        && bio.dev == first.dev
        && bio.dir == first.dir
        && io.dir == first.dir
        && bio.lba <= u64::MAX - bio.count as u64
        && is_request(adapter, pool, bytes, io)
}

fn size_of_first(ios: &[Io], bio: &Bio) -> u32 {
    if bio.op == 0 || bio.op as usize > ios.len() {
        return 0;
    }
    let io = &ios[bio.op as usize - 1];
    if io.count == 0 {
        return 0;
    }
    io.block_size()
}

/// The number of blocks of the group, or `None` where it is no group that the adapter may carry.
pub fn group_blocks(adapter: &Adapter, pool: &PagePool, ios: &[Io], req: &[Bio]) -> Option<u32>
    ensures count { IfSome result (λ n. n ≡ size req.now) }
    ensures group { IfSome result (λ n. (bytes : ℕ) × IsCarriedGroup adapter.now pool.now bytes ios.now req.now) }
{
    if req.is_empty() {
        return None;
    }
    let first = req[0];
    let bytes = size_of_first(ios, &first);
    if bytes == 0 || bytes > 4096 {
        return None;
    }
    let mut count = 0u32;
    for bio in req {
        if !is_bio(adapter, pool, bytes, ios, &first, bio) {
            return None;
        }
        if bio.count > u32::MAX - count || count as u64 > u64::MAX - first.lba {
            return None;
        }
        if bio.lba != first.lba + count as u64 {
            return None;
        }
        count += bio.count;
    }
    if count as u64 > u64::MAX - first.lba {
        return None;
    }
    Some(count)
}
