//! The groups of one device over an index of where they begin.

ghost use Rattle.std.specs.Prelude.{◌≡◌, ◌<◌, ◌≤◌, ◌+◌, ◌-◌, ◌^◌, ℕ, IfOk, if◌then◌else◌, not, ◌&&◌, eqb, false, [], ◌++◌, length, slice_index};
ghost use Rattle.std.specs.List.{filter, insert};
ghost use Rattle.std.specs.Vec.{vec_capacity};
ghost use Rattle.merge_queue.specs.declared.limits.Limits.{Limits as AnyLimits};
ghost use Rattle.merge_queue.specs.Groups.{PairFound, followers, group_in, joined, lba_of, may_follow, may_join, numbers, pairs, put, size, without};
ghost use Rattle.merge_queue.specs.Index.{bios_in};
ghost use Rattle.merge_queue.specs.Counts.{AreWithin, NoneJoins, leaders, links};

use crate::Limits;
use crate::chains::{copy_out, fill, one_chain};
use crate::entries::{
    Entry, as_number, both_entries, entry_of, may_join, place_before, place_before_near, place_for,
    place_for_near, put_in,
};
use bio_core::{Bio, Dir};
use std::alloc::{AllocError, Global};
use std::marker::Model;

/// The groups of one device, by first address, then by age.
#[derive(Drop)]
pub(crate) struct GroupIndex {
    // Where each group begins, in order, and the place of its first bio.
    begins: Vec<u64>,
    places: Vec<u32>,
    // A group's entry, at the place of its first bio.
    entries: Vec<Entry>,
    // The bios stay where they are; each place has the number of the place behind it, in its group or among
    // the free places.
    bios: Vec<Bio>,
    next: Vec<u32>,
    // The first free place, and how many there are.
    free: u32,
    left: u32,
    room: u32,
}

impl Model for GroupIndex {
    ghost use Rattle.std.specs.Prelude.{◌≤◌};
    ghost use Rattle.std.specs.Vec.{vec_capacity};
    ghost use Rattle.merge_queue.specs.Index.{Queued, IsHeld, entries_of, groups_of};

    ghost Value = { Queued };

    ghost view = { λ q. record { groups = groups_of (entries_of q.places.items q.entries.items) q.bios.items q.next.items; room = q.room } };

    ghost invariant = { λ q. IsHeld q.room q.begins.items q.places.items q.entries.items q.bios.items q.next.items q.free q.left × (q.room ≤ vec_capacity q.begins) × (q.room ≤ vec_capacity q.places) };
}

const NO_BIO: Bio = Bio {
    op: 0,
    k: 0,
    count: 0,
    dev: 0,
    lba: 0,
    dir: Dir::Read,
    segs: 0,
    pi_segs: 0,
};

const NO_ENTRY: Entry = Entry {
    lba: 0,
    dir: Dir::Read,
    bios: 0,
    first: 0,
    last: 0,
    blocks: 0,
    segs: 0,
    pi_segs: 0,
};

impl GroupIndex {
    /// An empty queue with room for so many bios. All its memory is taken here.
    pub(crate) fn new(alloc: Global, bios: u32) -> Result<GroupIndex, AllocError>
        ensures { IfOk result (λ q. (q.groups ≡ []) × (q.room ≡ bios)) }
    {
        let count = bios as usize;
        Ok(GroupIndex {
            begins: Vec::with_capacity(alloc, count)?,
            places: Vec::with_capacity(alloc, count)?,
            entries: vec![in alloc; NO_ENTRY; count]?,
            bios: vec![in alloc; NO_BIO; count]?,
            next: one_chain(alloc, bios)?,
            free: 0,
            left: bios,
            room: bios,
        })
    }

    /// The number of groups.
    pub(crate) fn groups(&self) -> u32
        ensures { result ≡ length self.now.groups }
    {
        self.places.len() as u32
    }

    /// The number of bios in all groups.
    pub(crate) fn bios(&self) -> u32
        ensures { result ≡ bios_in self.now.groups }
    {
        self.room - self.left
    }

    /// Adds one group as the youngest: bios, each beginning on the device where the one before ends. There is
    /// room left for them. Answers its place.
    pub(crate) fn put(&mut self, run: &[Bio]) -> u32
        requires some { 0 < length run.now }
        requires ends { lba_of run.now + size run.now < 2 ^ 64 }
        requires room { bios_in self.old.groups + length run.now ≤ self.old.room }
        ensures groups { self.new.groups ≡ put run.now self.old.groups }
        ensures bound { result ≤ length self.old.groups }
        ensures place { self.new.groups ≡ insert self.old.groups result run.now }
        ensures room { self.new.room ≡ self.old.room }
    {
        let first = self.free;
        let (last, behind) = fill(&mut self.bios, &self.next, first, run);
        let entry = entry_of(run, first, last);
        let at = place_for(&self.begins, entry.lba);
        put_in(&mut self.begins, at, entry.lba);
        put_in(&mut self.places, at, first);
        self.entries[first as usize] = entry;
        self.free = behind;
        self.left -= run.len() as u32;
        at as u32
    }

    /// Whether groups `i` and `j`, both from 0, may become one: they differ, have one direction, group `j` begins
    /// where group `i` ends, and both together are within the limits.
    pub(crate) fn joinable(&self, i: u32, j: u32, lim: &Limits) -> bool
        requires first { i < length self.now.groups }
        requires second { j < length self.now.groups }
        ensures { result ≡ (not (eqb i j) && may_follow lim.now (group_in self.now.groups i) (group_in self.now.groups j)) }
    {
        if i == j {
            return false;
        }
        let a = self.places[i as usize];
        let b = self.places[j as usize];
        may_join(&self.entries[a as usize], &self.entries[b as usize], lim)
    }

    /// Groups `i` and `j`, which differ and of which the second begins where the first ends, become one, in the
    /// place and with the age of group `i`.
    pub(crate) fn join(&mut self, i: u32, j: u32)
        requires first { i < length self.old.groups }
        requires second { j < length self.old.groups }
        requires other { i ≡ j → ⊥ }
        requires behind { lba_of (group_in self.old.groups i) + size (group_in self.old.groups i) ≡ lba_of (group_in self.old.groups j) }
        ensures groups { self.new.groups ≡ joined self.old.groups i j }
        ensures room { self.new.room ≡ self.old.room }
    {
        let first = self.places[i as usize];
        let second = self.places[j as usize];
        let front = self.entries[first as usize];
        let back = self.entries[second as usize];
        self.next[front.last as usize] = second;
        self.entries[first as usize] = both_entries(&front, &back);
        let _begin = self.begins.remove(j as usize);
        let _place = self.places.remove(j as usize);
    }

    /// Moves group `i` out: appends its bios to `into`, which has room for them.
    pub(crate) fn take(&mut self, i: u32, into: &mut Vec<Bio>)
        requires within { i < length self.old.groups }
        requires room { length into.old.items + length (group_in self.old.groups i) ≤ vec_capacity into.old }
        ensures groups { self.new.groups ≡ without i self.old.groups }
        ensures room { self.new.room ≡ self.old.room }
        ensures into { into.new.items ≡ into.old.items ++ group_in self.old.groups i }
        ensures capacity { vec_capacity into.new ≡ vec_capacity into.old }
    {
        let _begin = self.begins.remove(i as usize);
        let first = self.places.remove(i as usize);
        let entry = self.entries[first as usize];
        copy_out(&self.bios, &self.next, first, entry.bios, into);
        self.next[entry.last as usize] = self.free;
        self.free = first;
        self.left += entry.bios;
    }

    /// Where the groups are that begin where group i ends.
    fn behind(&self, i: u32) -> (u32, u32)
        requires { i < length self.now.groups }
        ensures order { result.0 ≤ result.1 }
        ensures bound { result.1 ≤ length self.now.groups }
        ensures only { (lim : AnyLimits) → followers lim self.now.groups i ≡ filter (may_join lim self.now.groups i) (numbers result.0 (result.1 - result.0)) }
    {
        let place = self.places[i as usize];
        let entry = self.entries[place as usize];
        let end = entry.lba + entry.blocks;
        // mostly the groups lie side by side
        let from = place_before(&self.begins, i as usize + 1, end);
        let to = place_for_near(&self.begins, from, end);
        (from as u32, to as u32)
    }

    /// How many groups may be joined behind group i.
    fn count_followers(&self, i: u32, lim: &Limits) -> u32
        requires { i < length self.now.groups }
        ensures count { result ≡ length (followers lim.now self.now.groups i) }
        ensures few { result < 2 ^ 32 }
    {
        let (from, to) = self.behind(i);
        let mut count = 0u32;
        for j in from..to {
            count += as_number(self.joinable(i, j, lim));
        }
        count
    }

    /// How many blocks group i has.
    pub(crate) fn blocks(&self, i: u32) -> u64
        requires { i < length self.now.groups }
        ensures { result ≡ size (group_in self.now.groups i) }
    {
        let place = self.places[i as usize];
        self.entries[place as usize].blocks
    }

    /// Where the groups are behind which group i may be joined. None has more blocks than so many, and with those of
    /// group i no more than the limit.
    fn before(&self, i: u32, most: u64, lim: &Limits) -> (u32, u32)
        requires there { i < length self.now.groups }
        requires within { AreWithin most self.now.groups }
        ensures order { result.0 ≤ result.1 }
        ensures bound { result.1 ≤ length self.now.groups }
        ensures groups { length self.now.groups < 2 ^ 32 }
        ensures only { leaders lim.now self.now.groups i ≡ filter (λ j. may_join lim.now self.now.groups j i) (numbers result.0 (result.1 - result.0)) }
        ensures none { (j : ℕ) → j < result.0 → may_join lim.now self.now.groups j i ≡ false }
    {
        let begin = self.begins[i as usize];
        let left = (lim.max_blocks as u64).saturating_sub(self.blocks(i));
        let low = begin.saturating_sub(most.min(left));
        let from = place_before_near(&self.begins, i as usize, low);
        let to = place_for_near(&self.begins, i as usize, begin);
        (from as u32, to as u32)
    }

    /// How many groups group i may be joined behind. None has more blocks than so many.
    fn count_leaders(&self, i: u32, most: u64, lim: &Limits) -> u32
        requires there { i < length self.now.groups }
        requires within { AreWithin most self.now.groups }
        ensures count { result ≡ length (leaders lim.now self.now.groups i) }
        ensures few { result < 2 ^ 32 }
        ensures groups { length self.now.groups < 2 ^ 32 }
    {
        let (from, to) = self.before(i, most, lim);
        let mut count = 0u32;
        for j in from..to {
            count += as_number(self.joinable(j, i, lim));
        }
        count
    }

    /// A place at most `first` before which no group makes a pair with group i, which makes so many.
    pub(crate) fn lowered(&self, first: u32, i: u32, pairs: u64, most: u64, lim: &Limits) -> u32
        requires there { i < length self.now.groups }
        requires pairs { pairs ≡ links lim.now self.now.groups i }
        requires within { AreWithin most self.now.groups }
        ensures low { result ≤ first }
        ensures behind { (j : ℕ) → i < result → j < length self.now.groups → may_join lim.now self.now.groups i j ≡ false }
        ensures before { (j : ℕ) → j < result → j < length self.now.groups → may_join lim.now self.now.groups j i ≡ false }
    {
        if pairs == 0 {
            return first;
        }
        first.min(i).min(self.before(i, most, lim).0)
    }

    /// The first group from one place to another that may be joined before some group, or the other place.
    pub(crate) fn first_joinable(&self, from: u32, to: u32, lim: &Limits) -> u32
        requires there { to ≤ length self.now.groups }
        requires none { NoneJoins lim.now self.now.groups from }
        ensures { NoneJoins lim.now self.now.groups result }
    {
        for i in from..to {
            if self.count_followers(i, lim) > 0 {
                return i;
            }
        }
        from.max(to)
    }

    /// Of how many pairs that may be joined group i is one. No group has more blocks than so many.
    pub(crate) fn links(&self, i: u32, most: u64, lim: &Limits) -> u64
        requires there { i < length self.now.groups }
        requires within { AreWithin most self.now.groups }
        ensures count { result ≡ links lim.now self.now.groups i }
        ensures few { result < 2 ^ 33 }
        ensures groups { length self.now.groups < 2 ^ 32 }
    {
        let behind = self.count_followers(i, lim);
        let before = self.count_leaders(i, most, lim);
        behind as u64 + before as u64
    }

    /// The same of two groups. A pair that they make counts once.
    pub(crate) fn links_of_two(&self, i: u32, j: u32, most: u64, lim: &Limits) -> u64
        requires first { i < length self.now.groups }
        requires second { j < length self.now.groups }
        requires other { i ≡ j → ⊥ }
        requires within { AreWithin most self.now.groups }
        ensures { result + ((if may_join lim.now self.now.groups i j then 1 else 0) + (if may_join lim.now self.now.groups j i then 1 else 0))
            ≡ links lim.now self.now.groups i + links lim.now self.now.groups j }
    {
        let there = as_number(self.joinable(i, j, lim)) as u64;
        let back = as_number(self.joinable(j, i, lim)) as u64;
        self.links(i, most, lim) - (there + back) + self.links(j, most, lim)
    }

    /// How many pairs of groups may be joined.
    pub(crate) fn joins(&self, lim: &Limits) -> u64
        ensures { result ≡ length (pairs lim.now self.now.groups) }
    {
        let n = self.groups();
        let mut count = 0u64;
        for i in 0..n {
            count += self.count_followers(i, lim) as u64;
        }
        count
    }

    /// The group of this number, from 0, among those that may be joined behind group i.
    fn follower(&self, i: u32, number: u32, lim: &Limits) -> u32
        requires first { i < length self.now.groups }
        requires within { number < length (followers lim.now self.now.groups i) }
        ensures { result ≡ slice_index (followers lim.now self.now.groups i) number }
    {
        let (from, to) = self.behind(i);
        let mut left = number;
        for j in from..to {
            if self.joinable(i, j, lim) {
                if left == 0 {
                    return j;
                }
                left -= 1;
            }
        }
        unreachable!()
    }

    /// The pair of this number among those that may be joined, or how far the number is past the last. No group before
    /// place `from` is the first of one; from there on for a low number few groups are looked at.
    pub(crate) fn find_join(&self, from: u32, number: u64, lim: &Limits) -> Result<(u32, u32), u64>
        requires { NoneJoins lim.now self.now.groups from }
        ensures { PairFound lim.now self.now.groups number result }
    {
        let n = self.groups();
        let mut left = number;
        for i in from.min(n)..n {
            let count = self.count_followers(i, lim) as u64;
            if left < count {
                return Ok((i, self.follower(i, left as u32, lim)));
            }
            left -= count;
        }
        Err(left)
    }
}
