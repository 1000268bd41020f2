//! Settling the blocks of a completed command.

ghost use Rattle.std.specs.Prelude.{◌≡◌, ◌<◌, ◌≤◌, ◌+◌, ◌-◌, ◌*◌, ◌^◌, length, replicate, slice_index_or};
ghost use Rattle.std.specs.List.{All};
ghost use Rattle.page_pool.specs.Pages.{AllLieIn, Wrote};
ghost use Rattle.page_pool.specs.Places.{NoneTwice, places_in, range_of, total};
ghost use Rattle.integrity_payload.specs.Payloads.{tuple_places};
ghost use Rattle.ref_remap.specs.Remapped.{AreRemapped};
ghost use Rattle.bio_core.specs.Bios.{block_size};
ghost use Rattle.bio_core.specs.declared.request.Dir.TheVariants.{Read};
ghost use Rattle.merge_queue.specs.Groups.{size};
ghost use Rattle.stack_walk_laws.specs.Settling.{AreAllWhole, AreFates, HasTuples, IsOf, IsWhole};
ghost use Rattle.stack_walk_laws.specs.Settled.{AllSettled, BioSettled, Blanked, Judged, LeftBy, MappedBack, ReadSettled, Settled, TupleBlanked, said_by};
ghost use Rattle.stack_core.specs.Places.{HoldsFates, KeepsPlaces};

use crate::kept::Fates;
use bio_core::{Bio, Dir, Fate, Io};
use block_path::owner_says;
use dix_adapter::Mode;
use integrity_payload::Payload;
use page_pool::{PagePool, SgList};
use pi_tuple::{PiType, TUPLE};
use ref_remap::map_back;

/// How what comes back is settled.
#[derive(Clone, Copy, Debug, PartialEq, Eq)]
pub(crate) struct Settling {
    /// How tuples travel.
    pub(crate) mode: Mode,
    /// The type of the tuples in the host's memory.
    pub(crate) ty: PiType,
}

/// What the owner of its tuple says of a block that came.
fn verified(pool: &PagePool, io: &Io, pi: &Payload, how: Settling, k: u32) -> Fate
    requires whole { IsWhole pool.now io.now }
    requires tuples { HasTuples pool.now io.now pi.now }
    requires within { k < io.now.count }
    ensures { result ≡ said_by pi.now how.mode how.ty pool.now io.now k }
{
    let mode = how.mode;
    match pi.verify(pool, &io.body, mode.kind, how.ty, k, mode.app, mode.mask) {
        Some(check) => Fate::Bad(owner_says(pi.owner, check)),
        None => Fate::Good,
    }
}

/// Zeros the data of a block of a read.
fn blank_data(pool: &mut PagePool, io: &Io, k: u32)
    requires whole { IsWhole pool.old io.now }
    requires read { io.now.dir ≡ Read }
    requires within { k < io.now.count }
    ensures pages { length pool.new ≡ length pool.old }
    ensures zeros { Wrote pool.old pool.new (range_of io.now.body (k * block_size io.now) (block_size io.now)) (replicate (block_size io.now) 0) }
{
    // A look for the proof: the body has few bytes.
    let _segs = io.body.as_slice();
    let size = io.block_size();
    pool.zero(&io.body, k * size, size);
}

/// Zeros the tuple of a block, where it has one.
fn blank_tuple(pool: &mut PagePool, io: &Io, k: u32)
    requires whole { IsWhole pool.old io.now }
    requires within { k < io.now.count }
    ensures pages { length pool.new ≡ length pool.old }
    ensures zeros { TupleBlanked io.now.pi k pool.old pool.new }
{
    if let Some(pi) = &io.pi {
        zero_tuple(pool, &pi.tuples, k);
    }
}

fn zero_tuple(pool: &mut PagePool, tuples: &SgList, k: u32)
    requires lie { AllLieIn pool.old tuples.now }
    requires once { NoneTwice (places_in tuples.now) }
    requires within { TUPLE * k + TUPLE ≤ total tuples.now }
    ensures pages { length pool.new ≡ length pool.old }
    ensures zeros { Wrote pool.old pool.new (tuple_places tuples.now k) (replicate TUPLE 0) }
{
    // A look for the proof: the list has few bytes.
    let _segs = tuples.as_slice();
    pool.zero(tuples, TUPLE as u32 * k, TUPLE as u32);
}

/// Zeros the data of a block of a read that failed, and its tuple.
fn blank(pool: &mut PagePool, io: &Io, k: u32)
    requires whole { IsWhole pool.old io.now }
    requires read { io.now.dir ≡ Read }
    requires within { k < io.now.count }
    ensures pages { length pool.new ≡ length pool.old }
    ensures zeros { Blanked io.now k pool.old pool.new }
{
    blank_data(pool, io, k);
    blank_tuple(pool, io, k);
}

/// A good block that was read has its tag mapped back and is looked at by its owner.
fn look_at(pool: &mut PagePool, io: &Io, pi: &Payload, how: Settling, k: u32, lba: u64) -> Fate
    requires whole { IsWhole pool.old io.now }
    requires tuples { HasTuples pool.old io.now pi.now }
    requires within { k < io.now.count }
    requires ends { lba + 1 < 2 ^ 64 }
    ensures pages { length pool.new ≡ length pool.old }
    ensures mapped { AreRemapped pool.old pool.new pi.now.tuples how.ty k 1 lba (pi.now.seed + k) }
    ensures said { result ≡ said_by pi.now how.mode how.ty pool.new io.now k }
{
    map_back(pool, pi, how.ty, k, 1, lba);
    verified(pool, io, pi, how, k)
}

/// What becomes of a block that was read.
fn judge_read(pool: &mut PagePool, io: &Io, how: Settling, k: u32, lba: u64, fate: Fate) -> Fate
    requires whole { IsWhole pool.old io.now }
    requires within { k < io.now.count }
    requires ends { lba + 1 < 2 ^ 64 }
    ensures pages { length pool.new ≡ length pool.old }
    ensures judged { Judged io.now.pi fate how.mode how.ty io.now k lba pool.old pool.new result }
{
    match (fate, &io.pi) {
        (Fate::Good, Some(pi)) => look_at(pool, io, pi, how, k, lba),
        _ => fate,
    }
}

fn blank_unless_good(pool: &mut PagePool, io: &Io, k: u32, fate: Fate)
    requires whole { IsWhole pool.old io.now }
    requires read { io.now.dir ≡ Read }
    requires within { k < io.now.count }
    ensures pages { length pool.new ≡ length pool.old }
    ensures left { LeftBy fate io.now k pool.old pool.new }
{
    if fate != Fate::Good {
        blank(pool, io, k);
    }
}

/// Settles a block that was read: a good one has its tag mapped back and is looked at by its owner; zeros stand in
/// place of a bad one.
fn settle_read(pool: &mut PagePool, io: &Io, how: Settling, k: u32, lba: u64, fate: Fate) -> Fate
    requires whole { IsWhole pool.old io.now }
    requires read { io.now.dir ≡ Read }
    requires within { k < io.now.count }
    requires ends { lba + 1 < 2 ^ 64 }
    ensures pages { length pool.new ≡ length pool.old }
    ensures settled { ReadSettled how.mode how.ty io.now k lba fate pool.old pool.new result }
{
    let settled = judge_read(pool, io, how, k, lba, fate);
    blank_unless_good(pool, io, k, settled);
    settled
}

/// Settles block `k` of a request, which lies at this address. One that was written has its tag mapped back.
fn settle_block(pool: &mut PagePool, io: &Io, how: Settling, k: u32, lba: u64, fate: Fate) -> Fate
    requires whole { IsWhole pool.old io.now }
    requires within { k < io.now.count }
    requires ends { lba + 1 < 2 ^ 64 }
    ensures pages { length pool.new ≡ length pool.old }
    ensures settled { Settled io.now.dir how.mode how.ty io.now k lba fate pool.old pool.new result }
{
    match io.dir {
        Dir::Read => settle_read(pool, io, how, k, lba, fate),
        Dir::Write => {
            if let Some(pi) = &io.pi {
                map_back(pool, pi, how.ty, k, 1, lba);
            }
            fate
        }
    }
}

/// Settles the blocks of a bio that were carried, whose fates these are, from a place on. An untouched one stays so.
fn settle_bio(
    pool: &mut PagePool,
    io: &Io,
    how: Settling,
    bio: &Bio,
    fates: &[Fate],
    at: usize,
    kept: &mut Fates,
)
    requires whole { IsWhole pool.old io.now }
    requires within { bio.now.k + bio.now.count ≤ io.now.count }
    requires ends { bio.now.lba + bio.now.count < 2 ^ 64 }
    requires held { HoldsFates io.now bio.now kept.old }
    requires fates { at + bio.now.count ≤ length fates.now }
    ensures pages { length pool.new ≡ length pool.old }
    ensures places { KeepsPlaces kept.old kept.new }
    ensures settled { BioSettled how.mode how.ty io.now (slice_index_or kept.old.starts.items (bio.now.op - 1) 0) bio.now fates.now at bio.now.count
        (record { pages = pool.old; held = kept.old.held.items }) (record { pages = pool.new; held = kept.new.held.items }) }
{
    // A look for the proof: the request has few blocks.
    let _blocks = io.count;
    for i in 0..bio.count {
        let fate = fates[at + i as usize];
        if fate != Fate::Untouched {
            let k = bio.k + i;
            let settled = settle_block(pool, io, how, k, bio.lba + i as u64, fate);
            kept.set(bio.op as usize - 1, k, settled);
        }
    }
}

/// Settles the blocks of a command that were carried.
pub(crate) fn settle_all(
    pool: &mut PagePool,
    ios: &[Io],
    how: Settling,
    bios: &[Bio],
    fates: &[Fate],
    kept: &mut Fates,
)
    requires whole { AreAllWhole pool.old ios.now }
    requires bios { All (IsOf ios.now) bios.now }
    requires fates { size bios.now ≡ length fates.now }
    requires kept { AreFates ios.now kept.old.starts.items kept.old.held.items }
    ensures pages { length pool.new ≡ length pool.old }
    ensures kept { AreFates ios.now kept.new.starts.items kept.new.held.items }
    ensures settled { AllSettled how.mode how.ty ios.now kept.old.starts.items bios.now fates.now (length bios.now)
        (record { pages = pool.old; held = kept.old.held.items }) (record { pages = pool.new; held = kept.new.held.items }) }
{
    let mut at = 0usize;
    for bio in bios {
        let io = &ios[bio.op as usize - 1];
        settle_bio(pool, io, how, bio, fates, at, kept);
        at += bio.count as usize;
    }
}
