//! What is kept, and the room for more.

ghost use Rattle.std.specs.Prelude.{◌≡◌, ◌+◌, ◌≤◌, ◌<◌, [], length, take, drop, OnOk};
ghost use Rattle.image_rig.specs.Logs.{logged, room_in};
ghost use Rattle.rig_api.specs.Log.{HasRoom, entry_at};
ghost use Rattle.pi_tuple.specs.declared.TheConstants.{LARGEST_BLOCK};

use crate::kept::Kept;
use crate::log::Log;
use fault_schedule::Label;
use pi_tuple::TUPLE;
use rig_api::Record;
use std::alloc::{AllocError, Global};

impl Log {
    /// A log without records, and without room.
    pub fn new(alloc: Global) -> Log
        ensures { logged result ≡ [] }
    {
        Log {
            kept: Vec::new(alloc),
            labels: Vec::new(alloc),
            moved: Vec::new(alloc),
            free: 0,
        }
    }

    /// The number of records.
    pub fn len(&self) -> u32
        ensures { result ≡ length (logged self.now) }
    {
        self.kept.len() as u32
    }

    /// Record `i`, from 0.
    pub fn record(&self, i: u32) -> &Record
        requires { i < length (logged self.now) }
        ensures { result.now ≡ (entry_at (logged self.now) i).what }
    {
        &self.kept[i as usize].what
    }

    /// The moved bytes of record `i`.
    pub fn moved(&self, i: u32) -> &[u8]
        requires { i < length (logged self.now) }
        ensures { result.now ≡ (entry_at (logged self.now) i).moved }
    {
        let k = &self.kept[i as usize];
        cut(&self.moved, k.moved_at, k.moved_len)
    }

    /// The labels of record `i`.
    pub fn labels(&self, i: u32) -> &[Label]
        requires { i < length (logged self.now) }
        ensures { result.now ≡ (entry_at (logged self.now) i).labels }
    {
        let k = &self.kept[i as usize];
        cut(&self.labels, k.labels_at, k.labels_len)
    }

    /// Takes the memory for so many further exchanges of together so many blocks of at most this
    /// size. The number of records stays below 2^32, so room for more of them is refused.
    pub fn reserve(&mut self, size: u32, exchanges: u32, blocks: u32) -> Result<(), AllocError>
        requires { size ≤ LARGEST_BLOCK }
        ensures room { OnOk result (HasRoom size exchanges blocks (room_in self.new)) }
        ensures log { logged self.new ≡ logged self.old }
    {
        let labels = exchanges as usize + blocks as usize;
        let moved = (size as usize + TUPLE) * blocks as usize + 32 * exchanges as usize;
        self.promise(exchanges)?;
        self.labels.reserve(labels)?;
        self.moved.reserve(moved)
    }

    /// Makes room for so many further records.
    fn promise(&mut self, records: u32) -> Result<(), AllocError>
        ensures kept { self.new.kept.items ≡ self.old.kept.items }
        ensures labels { self.new.labels ≡ self.old.labels }
        ensures moved { self.new.moved ≡ self.old.moved }
        ensures records { OnOk result (records ≤ self.new.free) }
    {
        if records as usize <= self.free {
            return Ok(());
        }
        if self.kept.len() as u64 + records as u64 > u32::MAX as u64 {
            return Err(AllocError);
        }
        self.kept.reserve(records as usize)?;
        self.free = records as usize;
        Ok(())
    }
}

fn cut<T>(all: &[T], at: usize, len: usize) -> &[T]
    requires { at + len ≤ length all.now }
    ensures { result.now ≡ take len (drop at all.now) }
{
    let (_, rest) = all.split_at(at);
    let (part, _) = rest.split_at(len);
    part
}
