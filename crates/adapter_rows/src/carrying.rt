//! The group, carried by the adapter.

use crate::case::Case;
use crate::layout::{LABELS, requests};
use arrayvec::ArrayVec;
use bio_core::{Bio, Dir, Fate};
use dix_adapter::{Adapter, Scratch};
use fault_schedule::{Crossing, FaultKind, FaultLine, FaultList, ShortBytes};
use page_pool::PagePool;
use rig_api::Rig;
use std::alloc::{AllocError, Global};
use test_groups::group_blocks;
use test_table::{cut, small};

/// The address of the group's first block.
const LBA: u64 = 6;

/// The bio of blocks of an op at an address.
fn bio(op: u32, k: u32, count: u32, lba: u64, dir: Dir) -> Bio {
    Bio {
        op,
        k,
        count,
        dev: 0,
        lba,
        dir,
        segs: 4,
        pi_segs: 1,
    }
}

fn group(dir: Dir) -> [Bio; 2] {
    [bio(1, 1, 2, LBA, dir), bio(2, 0, 1, LBA + 2, dir)]
}

/// The group carried by this adapter; no fates where it may not be carried.
pub(crate) fn carried<R: Rig>(
    alloc: Global,
    case: Case,
    adapter: &Adapter,
    pool: &mut PagePool,
    dir: Dir,
    rig: &mut R,
) -> Result<Vec<Fate>, AllocError> {
    let ios = requests(alloc, case, dir)?;
    let req = group(dir);
    let Some(count) = group_blocks(adapter, pool, &ios, &req) else {
        return Ok(Vec::new(alloc));
    };
    if adapter.protect != 1 || count > 3 || req[0].dev >= rig.devices() {
        return Ok(Vec::new(alloc));
    }
    let mut scratch = Scratch::new(alloc, count)?;
    let mut fates = Vec::with_capacity(alloc, count as usize)?;
    rig.reserve(alloc, 1, count)?;
    adapter.carry(pool, &ios, &req, rig, &mut scratch, &mut fates);
    Ok(fates)
}

fn crossing_of(word: &str) -> Crossing {
    match word {
        "host-adapter" => Crossing::HostToAdapter,
        "adapter-host" => Crossing::AdapterToHost,
        "adapter-target" => Crossing::AdapterToTarget,
        _ => Crossing::TargetToAdapter,
    }
}

/// A flip of the first byte of block `i` of the group.
fn flip(i: u32, at: Crossing) -> FaultLine {
    let (op, k) = LABELS[i as usize % 3];
    let mut bytes = ArrayVec::new();
    let _ = bytes.try_push(1u8);
    FaultLine {
        op,
        k,
        at,
        kind: FaultKind::Flip {
            off: 0,
            bytes: ShortBytes::from_array(bytes),
        },
    }
}

/// The faults of these words: a crossing, and the places in the group of the blocks whose first byte is altered there.
pub(crate) fn flips(alloc: Global, words: &str) -> Result<FaultList, AllocError> {
    let (word, places) = cut(words);
    let at = crossing_of(word);
    let mut lines = Vec::new(alloc);
    for place in places.split(' ') {
        lines.push(flip(small(place), at))?;
    }
    Ok(FaultList::from_vec(lines))
}
