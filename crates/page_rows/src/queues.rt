//! Queues of one device.

use crate::bios::bio_text;
use crate::kinds::{dir_of, fits};
use crate::scene::NO_BIO;
use bio_core::Bio;
use merge_queue::{DeviceQueue, Limits};
use std::alloc::{AllocError, Global};
use std::marker::Model;
use test_table::{Words, cut};

/// How many bios a queue has room for.
const ROOM: u32 = 24;

/// A queue with that room.
#[derive(Drop)]
struct Queue {
    inner: DeviceQueue,
}

impl Model for Queue {
    ghost use Rattle.std.specs.Prelude.{◌≡◌};
    ghost use Rattle.merge_queue.specs.Index.{Queued};

    ghost Value = { Queued };

    ghost view = { λ q. q.inner };

    ghost invariant = { λ q. q.inner.room ≡ 24 };
}

/// A queue, and what one command may hold.
#[derive(Drop)]
pub(crate) struct Device {
    queue: Queue,
    limits: Limits,
}

fn limits_of(words: &str) -> Limits {
    let mut words = Words::of(words);
    Limits {
        max_blocks: words.small(),
        max_segs: words.small(),
        max_pi_segs: words.small(),
    }
}

/// The bio of these words: its first block, how many blocks it has, its address and direction, and its segments of data
/// and of tuples.
fn bio_of(words: &str) -> Bio {
    let mut words = Words::of(words);
    Bio {
        op: 1,
        k: words.small(),
        count: words.small(),
        lba: words.number(),
        dir: dir_of(words.word()),
        segs: words.small(),
        pi_segs: words.small(),
        ..NO_BIO
    }
}

impl Queue {
    fn new(alloc: Global) -> Result<Queue, AllocError> {
        let inner = DeviceQueue::new(alloc, ROOM)?;
        Ok(Queue { inner })
    }

    /// Adds a group of one bio.
    fn put_one(&mut self, one: Bio) -> bool {
        let may = fits(one.lba, one.count as u64) && self.inner.bios() < ROOM;
        if may {
            self.inner.put(&[one]);
        }
        may
    }

    /// Adds a group of two bios, the second of which begins where the first ends.
    fn put_two(&mut self, one: Bio, two: Bio) -> bool {
        let may = fits(one.lba, one.count as u64 + two.count as u64)
            && self.inner.bios() < ROOM - 1;
        if may {
            self.inner.put(&[one, two]);
        }
        may
    }

    fn join(&mut self, i: u32, j: u32, limits: &Limits) -> bool {
        let groups = self.inner.groups();
        let may = i < groups && j < groups && self.inner.joinable(i, j, limits);
        if may {
            self.inner.join(i, j);
        }
        may
    }

    /// Moves a group out.
    #[tactic(auto, using(crate::proofs::Facts::one_group))]
    fn take(&mut self, alloc: Global, i: u32) -> Result<Vec<Bio>, AllocError> {
        let mut into = Vec::with_capacity(alloc, ROOM as usize)?;
        if i < self.inner.groups() && self.inner.bios() <= ROOM {
            self.inner.take(i, &mut into);
        }
        Ok(into)
    }

    fn joinable(&self, i: u32, j: u32, limits: &Limits) -> bool {
        let groups = self.inner.groups();
        i < groups && j < groups && self.inner.joinable(i, j, limits)
    }
}

/// The text of bios, one behind another.
fn bios_text(alloc: Global, bios: &[Bio]) -> Result<String, AllocError> {
    let mut text = String::new(alloc);
    for bio in bios {
        text.push_str(" / ")?;
        text.push_str(bio_text(alloc, bio)?.as_str())?;
    }
    Ok(text)
}

impl Device {
    pub(crate) fn new(alloc: Global) -> Result<Device, AllocError> {
        Ok(Device {
            queue: Queue::new(alloc)?,
            limits: limits_of(""),
        })
    }

    /// Takes a line that says what the next rows stand on. Answers false where it is none.
    pub(crate) fn set(&mut self, alloc: Global, line: &str) -> Result<bool, AllocError> {
        let (word, rest) = cut(line);
        match word {
            "queue" => self.queue = Queue::new(alloc)?,
            "limits" => self.limits = limits_of(rest),
            "keep" => self.queue.inner.keep_count(&limits_of(rest)),
            _ => return Ok(false),
        }
        Ok(true)
    }

    /// How many groups, bios and pairs that may be joined there are, where the call was done.
    fn sums(&self, alloc: Global, done: bool) -> Result<Option<String>, AllocError> {
        if !done {
            return Ok(None);
        }
        let (groups, bios) = (self.queue.inner.groups(), self.queue.inner.bios());
        let joins = self.queue.inner.joins(&self.limits);
        Ok(Some(format!(in alloc; "{groups} {bios} {joins}")?))
    }

    fn put(&mut self, words: &str) -> bool {
        match words.split_once(" / ") {
            Some((one, two)) => self.queue.put_two(bio_of(one), bio_of(two)),
            None => self.queue.put_one(bio_of(words)),
        }
    }

    fn take(&mut self, alloc: Global, i: u32) -> Result<Option<String>, AllocError> {
        let group = self.queue.take(alloc, i)?;
        let Some(sums) = self.sums(alloc, !group.is_empty())? else {
            return Ok(None);
        };
        let bios = bios_text(alloc, &group)?;
        Ok(Some(format!(in alloc; "{sums}{bios}")?))
    }

    fn find(&self, alloc: Global, number: u64) -> Result<Option<String>, AllocError> {
        match self.queue.inner.find_join(number, &self.limits) {
            Ok((i, j)) => Ok(Some(format!(in alloc; "{i} {j}")?)),
            Err(left) => Ok(Some(format!(in alloc; "none {left}")?)),
        }
    }

    /// What a call to the queue comes to.
    pub(crate) fn answer(
        &mut self,
        alloc: Global,
        word: &str,
        rest: &str,
    ) -> Result<Option<String>, AllocError> {
        let mut words = Words::of(rest);
        let (i, j) = (words.small(), words.small());
        match word {
            "put" => {
                let done = self.put(rest);
                self.sums(alloc, done)
            }
            "join" => {
                let done = self.queue.join(i, j, &self.limits);
                self.sums(alloc, done)
            }
            "take" => self.take(alloc, i),
            "joins" => self.sums(alloc, true),
            "find" => self.find(alloc, i as u64),
            "joinable" => {
                let may = self.queue.joinable(i, j, &self.limits);
                Ok(Some(format!(in alloc; "{may}")?))
            }
            _ => Ok(None),
        }
    }
}
