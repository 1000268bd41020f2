//! The index of a queue: where its groups begin, and an entry for each of them.

ghost use Rattle.std.specs.Prelude.{◌≡◌, ◌<◌, ◌≤◌, ◌+◌, ◌^◌, ℕ, IsTrue, if◌then◌else◌, length, slice_index_or};
ghost use Rattle.std.specs.List.{insert};
ghost use Rattle.std.specs.List.Sorted.{IsNonDecreasing};
ghost use Rattle.std.specs.Vec.{vec_capacity};
ghost use Rattle.merge_queue.specs.Groups.{Group, lba_of, may_follow, same_dir, size};
ghost use Rattle.merge_queue.specs.Index.{Describes, Fit, both};

use crate::Limits;
use bio_core::{Bio, Dir};

/// One group: where it begins, its direction, its bios with the places of the first and the last of them, and
/// their sums.
#[derive(Clone, Copy, Debug, PartialEq, Eq)]
pub(crate) struct Entry {
    pub(crate) lba: u64,
    pub(crate) dir: Dir,
    pub(crate) bios: u32,
    pub(crate) first: u32,
    pub(crate) last: u32,
    pub(crate) blocks: u64,
    pub(crate) segs: u64,
    pub(crate) pi_segs: u64,
}

/// The entry of a new group whose first and last bio have these places.
pub(crate) fn entry_of(run: &[Bio], first: u32, last: u32) -> Entry
    requires some { 0 < length run.now }
    requires few { length run.now < 2 ^ 32 }
    requires ends { lba_of run.now + size run.now < 2 ^ 64 }
    ensures describes { Describes result run.now }
    ensures first { result.first ≡ first }
    ensures last { result.last ≡ last }
{
    let mut blocks = 0u64;
    let mut segs = 0u64;
    let mut pi_segs = 0u64;
    for b in run {
        blocks += b.count as u64;
        segs += b.segs as u64;
        pi_segs += b.pi_segs as u64;
    }
    Entry {
        lba: run[0].lba,
        dir: run[0].dir,
        bios: run.len() as u32,
        first,
        last,
        blocks,
        segs,
        pi_segs,
    }
}

/// Behind all groups that begin at this address or before.
pub(crate) fn place_for(begins: &[u64], lba: u64) -> usize
    requires { IsNonDecreasing begins.now }
    ensures bound { result ≤ length begins.now }
    ensures before { (k d : ℕ) → k < result → slice_index_or begins.now k d ≤ lba }
    ensures after { (k d : ℕ) → result ≤ k → k < length begins.now → lba < slice_index_or begins.now k d }
{
    begins.partition_point(|b| *b <= lba)
}

/// Whether all groups before a place begin before this address, and no other one does.
fn is_place_before(begins: &[u64], at: usize, lba: u64) -> bool
    requires { IsNonDecreasing begins.now }
    ensures bound { IsTrue result → at ≤ length begins.now }
    ensures before { IsTrue result → (k d : ℕ) → k < at → slice_index_or begins.now k d < lba }
    ensures after { IsTrue result → (k d : ℕ) → at ≤ k → k < length begins.now → lba ≤ slice_index_or begins.now k d }
{
    at <= begins.len()
        && (at == 0 || begins[at - 1] < lba)
        && (at == begins.len() || lba <= begins[at])
}

/// Behind all groups that begin before this address. Looks first whether that is this place.
pub(crate) fn place_before(begins: &[u64], near: usize, lba: u64) -> usize
    requires { IsNonDecreasing begins.now }
    ensures bound { result ≤ length begins.now }
    ensures before { (k d : ℕ) → k < result → slice_index_or begins.now k d < lba }
    ensures after { (k d : ℕ) → result ≤ k → k < length begins.now → lba ≤ slice_index_or begins.now k d }
{
    if is_place_before(begins, near, lba) {
        return near;
    }
    begins.partition_point(|b| *b < lba)
}

/// Behind all groups that begin before this address. Looks first whether that is this place or the one before.
pub(crate) fn place_before_near(begins: &[u64], near: usize, lba: u64) -> usize
    requires { IsNonDecreasing begins.now }
    ensures bound { result ≤ length begins.now }
    ensures before { (k d : ℕ) → k < result → slice_index_or begins.now k d < lba }
    ensures after { (k d : ℕ) → result ≤ k → k < length begins.now → lba ≤ slice_index_or begins.now k d }
{
    if is_place_before(begins, near, lba) {
        return near;
    }
    place_before(begins, near.saturating_sub(1), lba)
}

/// Whether all groups before a place begin at this address or before, and no other one does.
fn is_place_for(begins: &[u64], at: usize, lba: u64) -> bool
    requires { IsNonDecreasing begins.now }
    ensures bound { IsTrue result → at ≤ length begins.now }
    ensures before { IsTrue result → (k d : ℕ) → k < at → slice_index_or begins.now k d ≤ lba }
    ensures after { IsTrue result → (k d : ℕ) → at ≤ k → k < length begins.now → lba < slice_index_or begins.now k d }
{
    at <= begins.len()
        && (at == 0 || begins[at - 1] <= lba)
        && (at == begins.len() || lba < begins[at])
}

/// Behind all groups that begin at this address or before. Looks first whether that is this place or the next.
pub(crate) fn place_for_near(begins: &[u64], near: usize, lba: u64) -> usize
    requires rise { IsNonDecreasing begins.now }
    requires near { near ≤ length begins.now }
    ensures bound { result ≤ length begins.now }
    ensures before { (k d : ℕ) → k < result → slice_index_or begins.now k d ≤ lba }
    ensures after { (k d : ℕ) → result ≤ k → k < length begins.now → lba < slice_index_or begins.now k d }
{
    if is_place_for(begins, near, lba) {
        return near;
    }
    if is_place_for(begins, near + 1, lba) {
        return near + 1;
    }
    place_for(begins, lba)
}

pub(crate) fn as_number(b: bool) -> u32
    ensures { result ≡ (if b then 1 else 0) }
{
    if b { 1 } else { 0 }
}

/// Puts an element between the others.
pub(crate) fn put_in<T: Copy>(list: &mut Vec<T>, at: usize, x: T)
    requires within { at ≤ length list.old.items }
    requires room { length list.old.items < vec_capacity list.old }
    ensures items { list.new.items ≡ insert list.old.items at x }
    ensures capacity { vec_capacity list.new ≡ vec_capacity list.old }
{
    match list.insert(at, x) {
        Ok(()) => (),
        Err(_) => unreachable!(),
    }
}

/// The entry of two groups that become one.
pub(crate) fn both_entries(a: &Entry, b: &Entry) -> Entry
    requires { Fit a.now b.now }
    ensures { result ≡ both a.now b.now }
{
    Entry {
        lba: a.lba,
        dir: a.dir,
        bios: a.bios + b.bios,
        first: a.first,
        last: b.last,
        blocks: a.blocks + b.blocks,
        segs: a.segs + b.segs,
        pi_segs: a.pi_segs + b.pi_segs,
    }
}

fn is_one_way(a: Dir, b: Dir) -> bool
    ensures { result ≡ same_dir a b }
{
    match (a, b) {
        (Dir::Read, Dir::Read) => true,
        (Dir::Write, Dir::Write) => true,
        _ => false,
    }
}

/// Whether the second group may follow the first.
pub(crate) fn may_join(a: &Entry, b: &Entry, lim: &Limits) -> bool
    requires { Fit a.now b.now }
    ensures { (g h : Group) → Describes a.now g → Describes b.now h → result ≡ may_follow lim.now g h }
{
    is_one_way(a.dir, b.dir)
        && a.lba + a.blocks == b.lba
        && a.blocks + b.blocks <= lim.max_blocks as u64
        && a.segs + b.segs <= lim.max_segs as u64
        && a.pi_segs + b.pi_segs <= lim.max_pi_segs as u64
}
