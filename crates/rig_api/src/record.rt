//! What the record of an exchange keeps, for whoever implements a rig.

ghost use Rattle.std.specs.Prelude.{◌≡◌, ◌+◌, ◌*◌, ◌≤◌, ◌<◌, ◌^◌, Some, length, take};
ghost use Rattle.rig_api.specs.Log.{capacity_len, frames_done, labels_of, moved_of};
ghost use Rattle.rig_api.specs.Frames.{sent_size};
ghost use Rattle.rig_api.specs.Requests.{blocks_in, blocks_of, transferred};
ghost use Rattle.cdb_codec.specs.Decoded.{decoded};
ghost use Rattle.cdb_codec.specs.Passed.{TUPLE, LARGEST_BLOCK};

use crate::{Outcome, Record, Request, request_of, sent_size};
use arrayvec::ArrayVec;
use cdb_codec::{Cdb, CdbFault, Rw};
use fault_schedule::{Label, ShortBytes};

impl Record {
    /// The record of an exchange: the device, the command block of at most 32 bytes and the
    /// outcome.
    pub fn of(dev: u32, cdb: &[u8], outcome: Outcome) -> Record
        requires { length cdb.now ≤ 32 }
        ensures { result ≡ record { dev = dev; cdb = cdb.now; outcome = outcome } }
    {
        let mut held = ArrayVec::new();
        match held.try_extend_from_slice(cdb) {
            Ok(()) => Record {
                dev,
                cdb: ShortBytes::from_array(held),
                outcome,
            },
            Err(_) => unreachable!(),
        }
    }
}

/// The first `count`, or all where there are fewer.
pub fn front<T>(all: &[T], count: usize) -> &[T]
    ensures { result.now ≡ take count all.now }
{
    if count < all.len() {
        let (part, _) = all.split_at(count);
        return part;
    }
    all
}

fn frames_done<'a>(size: u32, c: Rw, done: u32, buffer: &'a [u8]) -> &'a [u8]
    requires { size ≤ LARGEST_BLOCK }
    ensures value { result.now ≡ frames_done size c done buffer.now }
    ensures bound { length result.now ≤ (size + TUPLE) * c.n }
{
    front(buffer, done.min(c.n) as usize * sent_size(c.protect, size))
}

fn transferred(request: Request) -> u32
    ensures { result ≡ transferred request }
{
    match request {
        Request::Read(c) => c.n,
        Request::Write(c) => c.n,
        Request::Verify(_) => 0,
        Request::ReadCapacity(_) => 0,
    }
}

fn blocks_in(command: Result<Cdb, CdbFault>) -> u32
    ensures { result ≡ blocks_in command }
{
    match command {
        Ok(cdb) => transferred(request_of(cdb)),
        Err(_) => 0,
    }
}

/// The number of blocks that a command block transfers: those of a read or a write.
pub fn blocks_of(cdb: &[u8]) -> u32
    ensures { result ≡ blocks_of cdb.now }
{
    blocks_in(Cdb::decode(cdb))
}

/// An exchange that is over.
#[derive(Clone, Copy)]
pub struct Exchanged<'a> {
    /// The device.
    pub dev: u32,
    /// The bytes of data in a block of its unit, at most 4,096.
    pub size: u32,
    /// The command block.
    pub cdb: &'a [u8],
    /// The command that stands in it, or its fault.
    pub command: Result<Cdb, CdbFault>,
    /// The labels of the blocks.
    pub labels: &'a [Label],
    /// How it ended.
    pub outcome: Outcome,
    /// What the host sent.
    pub out: &'a [u8],
    /// Where the host gets what the target sends, as it is afterwards.
    pub into: &'a [u8],
}

impl<'a> Exchanged<'a> {
    /// The labels that the record keeps: of the blocks that are done and of the one where the exchange ended.
    pub fn kept_labels(&self) -> &'a [Label]
        requires command { self.now.command ≡ decoded self.now.cdb.now }
        ensures value { result.now ≡ labels_of self.now.cdb.now self.now.outcome self.now.labels.now }
        ensures bound { length result.now ≤ blocks_of self.now.cdb.now }
    {
        let kept = (self.outcome.done as u64 + 1).min(blocks_in(self.command) as u64);
        front(self.labels, kept as usize)
    }

    /// The bytes that the record keeps: the frames of the blocks that are done, and of READ CAPACITY(16) all that was
    /// read.
    pub fn moved(&self) -> &'a [u8]
        requires command { self.now.command ≡ decoded self.now.cdb.now }
        requires size { self.now.size ≤ LARGEST_BLOCK }
        ensures value { result.now ≡ moved_of self.now.size self.now.cdb.now self.now.outcome self.now.out.now self.now.into.now }
        ensures bound { length result.now ≤ (self.now.size + TUPLE) * blocks_of self.now.cdb.now + capacity_len self.now.cdb.now (length self.now.into.now) }
    {
        let Ok(cdb) = self.command else {
            return &[];
        };
        match request_of(cdb) {
            Request::Read(c) => frames_done(self.size, c, self.outcome.done, self.into),
            Request::Write(c) => frames_done(self.size, c, self.outcome.done, self.out),
            Request::Verify(_) => &[],
            Request::ReadCapacity(_) => self.into,
        }
    }
}
