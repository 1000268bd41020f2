//! The queue of one device.

ghost use Rattle.std.specs.Prelude.{◌≡◌, ◌<◌, ◌≤◌, ◌+◌, ◌^◌, IfOk, IsTrue, not, ◌&&◌, eqb, [], ◌++◌, length};
ghost use Rattle.std.specs.Vec.{vec_capacity};
ghost use Rattle.merge_queue.specs.Groups.{PairFound, group_in, joined, lba_of, may_follow, pairs, put, size, without};
ghost use Rattle.merge_queue.specs.Index.{bios_in};

use crate::Limits;
use crate::group_index::GroupIndex;
use bio_core::Bio;
use std::alloc::{AllocError, Global};
use std::marker::Model;

/// The groups of one device, by first address, then by age.
#[derive(Drop)]
pub struct DeviceQueue {
    index: GroupIndex,
    // How many pairs of groups may be joined under these limits.
    limits: Limits,
    count: u64,
    // No group has more blocks.
    longest: u64,
    // No group before this place may be joined before another.
    first: u32,
}

impl Model for DeviceQueue {
    ghost use Rattle.merge_queue.specs.Index.{Queued};
    ghost use Rattle.merge_queue.specs.Counts.{Counted, NoneJoins};

    ghost Value = { Queued };

    ghost view = { λ q. q.index };

    ghost invariant = { λ q. Counted q.index.groups q.limits q.count q.longest × NoneJoins q.limits q.index.groups q.first };
}

const NO_LIMITS: Limits = Limits {
    max_blocks: 0,
    max_segs: 0,
    max_pi_segs: 0,
};

fn are_same(a: &Limits, b: &Limits) -> bool
    ensures { IsTrue result → a.now ≡ b.now }
{
    a.max_blocks == b.max_blocks && a.max_segs == b.max_segs && a.max_pi_segs == b.max_pi_segs
}

/// Where group i is once group j has gone.
fn place_left(i: u32, j: u32) -> u32
    requires { i ≡ j → ⊥ }
    ensures before { i < j → result ≡ i }
    ensures behind { j < i → result + 1 ≡ i }
{
    if i < j { i } else { i - 1 }
}

/// Behind as many groups as before, once group j has gone.
fn groups_left(first: u32, j: u32) -> u32
    ensures before { first ≤ j → result ≡ first }
    ensures behind { j < first → result + 1 ≡ first }
{
    if j < first { first - 1 } else { first }
}

impl DeviceQueue {
    /// An empty queue with room for so many bios. All its memory is taken here.
    pub fn new(alloc: Global, bios: u32) -> Result<DeviceQueue, AllocError>
        ensures { IfOk result (λ q. (q.groups ≡ []) × (q.room ≡ bios)) }
    {
        Ok(DeviceQueue {
            index: GroupIndex::new(alloc, bios)?,
            limits: NO_LIMITS,
            count: 0,
            longest: 0,
            first: 0,
        })
    }

    /// From now on the number of pairs that may be joined under these limits is kept, so that `joins` needs no count.
    pub fn keep_count(&mut self, lim: &Limits)
        ensures { self.new ≡ self.old }
    {
        self.limits = *lim;
        self.first = 0;
        self.count = self.index.joins(lim);
    }

    /// The number of groups.
    pub fn groups(&self) -> u32
        ensures { result ≡ length self.now.groups }
    {
        self.index.groups()
    }

    /// The number of bios in all groups.
    pub fn bios(&self) -> u32
        ensures { result ≡ bios_in self.now.groups }
    {
        self.index.bios()
    }

    /// Adds one group as the youngest: bios, each beginning on the device where the one before ends. There is
    /// room left for them.
    pub fn put(&mut self, run: &[Bio])
        requires some { 0 < length run.now }
        requires ends { lba_of run.now + size run.now < 2 ^ 64 }
        requires room { bios_in self.old.groups + length run.now ≤ self.old.room }
        ensures groups { self.new.groups ≡ put run.now self.old.groups }
        ensures room { self.new.room ≡ self.old.room }
    {
        let at = self.index.put(run);
        self.longest = self.longest.max(self.index.blocks(at));
        let pairs = self.index.links(at, self.longest, &self.limits);
        self.first = self
            .index
            .lowered(self.first, at, pairs, self.longest, &self.limits);
        self.count += pairs;
    }

    /// Whether groups `i` and `j`, both from 0, may become one: they differ, have one direction, group `j` begins
    /// where group `i` ends, and both together are within the limits.
    pub fn joinable(&self, i: u32, j: u32, lim: &Limits) -> bool
        requires first { i < length self.now.groups }
        requires second { j < length self.now.groups }
        ensures { result ≡ (not (eqb i j) && may_follow lim.now (group_in self.now.groups i) (group_in self.now.groups j)) }
    {
        self.index.joinable(i, j, lim)
    }

    /// Groups `i` and `j`, which differ and of which the second begins where the first ends, become one, in the
    /// place and with the age of group `i`.
    pub fn join(&mut self, i: u32, j: u32)
        requires first { i < length self.old.groups }
        requires second { j < length self.old.groups }
        requires other { i ≡ j → ⊥ }
        requires behind { lba_of (group_in self.old.groups i) + size (group_in self.old.groups i) ≡ lba_of (group_in self.old.groups j) }
        ensures groups { self.new.groups ≡ joined self.old.groups i j }
        ensures room { self.new.room ≡ self.old.room }
    {
        self.count -= self.index.links_of_two(i, j, self.longest, &self.limits);
        let first = self.index.first_joinable(self.first, i, &self.limits);
        self.index.join(i, j);
        let at = place_left(i, j);
        self.longest = self.longest.max(self.index.blocks(at));
        let pairs = self.index.links(at, self.longest, &self.limits);
        let left = groups_left(groups_left(first, j), at);
        self.first = self
            .index
            .lowered(left, at, pairs, self.longest, &self.limits);
        self.count += pairs;
    }

    /// Moves group `i` out: appends its bios to `into`, which has room for them.
    pub fn take(&mut self, i: u32, into: &mut Vec<Bio>)
        requires within { i < length self.old.groups }
        requires room { length into.old.items + length (group_in self.old.groups i) ≤ vec_capacity into.old }
        ensures groups { self.new.groups ≡ without i self.old.groups }
        ensures room { self.new.room ≡ self.old.room }
        ensures into { into.new.items ≡ into.old.items ++ group_in self.old.groups i }
        ensures capacity { vec_capacity into.new ≡ vec_capacity into.old }
    {
        self.count -= self.index.links(i, self.longest, &self.limits);
        self.first = groups_left(self.first, i);
        self.index.take(i, into);
    }

    /// How many pairs of groups may be joined. Under the limits for which a count is kept that is the answer.
    pub fn joins(&self, lim: &Limits) -> u64
        ensures { result ≡ length (pairs lim.now self.now.groups) }
    {
        if are_same(lim, &self.limits) {
            return self.count;
        }
        self.index.joins(lim)
    }

    /// The pair of this number among those that may be joined, or how far the number is past the last. For a low number
    /// few groups are looked at, none of them before the first that may be joined, and none for one past the count kept.
    pub fn find_join(&self, number: u64, lim: &Limits) -> Result<(u32, u32), u64>
        ensures { PairFound lim.now self.now.groups number result }
    {
        if !are_same(lim, &self.limits) {
            return self.index.find_join(0, number, lim);
        }
        if number >= self.count {
            return Err(number - self.count);
        }
        self.index.find_join(self.first, number, lim)
    }
}
