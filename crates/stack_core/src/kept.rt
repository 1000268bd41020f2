//! What became of each block of each request, and the room for replies.

ghost use Rattle.std.specs.Prelude.{◌≡◌, ◌<◌, ◌≤◌, ◌+◌, ◌^◌, ◌++◌, [], ◌∷◌, IfOk, length, map, take, drop, replicate, slice_index_or, slice_set};
ghost use Rattle.bio_core.specs.declared.fate.Fate.TheVariants.{Untouched};
ghost use Rattle.std.specs.Vec.{vec_capacity};
ghost use Rattle.stack_laws.specs.Runs.{blocks_of_requests};
ghost use Rattle.stack_walk_laws.specs.Sheets.{request_in};
ghost use Rattle.stack_walk_laws.specs.Settling.{AreFates};
ghost use Rattle.stack_core.specs.Rooms.{IsForBlocks, Suits, blocks_in};
ghost use Rattle.stack_core.specs.Replies.{HoldsBad, HoldsShown, bad_from, reply_of, shown};
ghost use Rattle.bio_core.specs.declared.TheConstants.{MOST_BLOCKS};

use crate::requests::sealed;
use bio_core::{Fate, Io};
use dix_base::ByteList;
use integrity_payload::Payload;
use stack_ops::{BadBlock, BadList, Op, Reply};
use std::alloc::{AllocError, Global};

/// What became of each block so far, one request after another.
#[derive(Drop)]
pub(crate) struct Fates {
    /// Where the blocks of each request begin.
    pub(crate) starts: Vec<usize>,
    pub(crate) held: Vec<Fate>,
}

impl Fates {
    /// Of no block anything became yet.
    pub(crate) fn new(alloc: Global, ios: &[Io]) -> Result<Fates, AllocError>
        requires { blocks_of_requests (map request_in ios.now) ≤ MOST_BLOCKS }
        ensures fates { IfOk result (λ f. AreFates ios.now f.starts.items f.held.items) }
        ensures held { IfOk result (λ f. f.held.items ≡ replicate (blocks_of_requests (map request_in ios.now)) Untouched) }
    {
        let mut starts = Vec::with_capacity(alloc, ios.len())?;
        let mut blocks = 0usize;
        for io in ios {
            starts.push_reserved(blocks);
            blocks += io.count as usize;
        }
        Ok(Fates {
            starts,
            held: vec![in alloc; Fate::Untouched; blocks]?,
        })
    }

    /// The number of blocks.
    pub(crate) fn blocks(&self) -> u32
        requires { length self.now.held.items < 2 ^ 32 }
        ensures { result ≡ length self.now.held.items }
    {
        self.held.len() as u32
    }

    /// Block `k` of a request is settled.
    pub(crate) fn set(&mut self, op: usize, k: u32, fate: Fate)
        requires there { op < length self.old.starts.items }
        requires within { slice_index_or self.old.starts.items op 0 + k < length self.old.held.items }
        ensures starts { self.new.starts.items ≡ self.old.starts.items }
        ensures held { self.new.held.items ≡ slice_set self.old.held.items (slice_index_or self.old.starts.items op 0 + k) fate }
    {
        let at = self.starts[op] + k as usize;
        self.held[at] = fate;
    }

    /// What became of the `count` blocks of a request.
    pub(crate) fn of(&self, op: usize, count: u32) -> &[Fate]
        requires there { op < length self.now.starts.items }
        requires within { slice_index_or self.now.starts.items op 0 + count ≤ length self.now.held.items }
        ensures value { result.now ≡ take count (drop (slice_index_or self.now.starts.items op 0) self.now.held.items) }
        ensures count { length result.now ≡ count }
    {
        let start = self.starts[op];
        &self.held[start..start + count as usize]
    }
}

/// What an op needs for its end: the room of its reply, or the tuples that it makes.
#[derive(Drop)]
pub(crate) enum Room {
    Nothing,
    Blocks(Vec<BadBlock>),
    Bytes(Vec<u8>),
    Tuples(Payload),
}

/// The most that an op may reply.
pub(crate) fn room_for(alloc: Global, op: &Op) -> Result<Room, AllocError>
    ensures bad { IfOk result (HoldsBad (blocks_in op.now)) }
    ensures suits { IfOk result (Suits op.now) }
{
    match op {
        Op::Write { n, .. } | Op::Fetch { n, .. } => room_for_bad(alloc, *n),
        Op::WritePi { n, .. } | Op::FetchPi { n, .. } => room_for_bad(alloc, *n),
        Op::Show { seg } => Ok(Room::Bytes(Vec::with_capacity(alloc, seg.len as usize)?)),
        Op::Seal {
            n,
            tuples,
            app,
            rtag,
            ..
        } => Ok(Room::Tuples(sealed(alloc, *n, tuples, *app, *rtag)?)),
        _ => Ok(Room::Nothing),
    }
}

fn room_for_bad(alloc: Global, n: u32) -> Result<Room, AllocError>
    ensures bad { IfOk result (HoldsBad n) }
    ensures blocks { IfOk result IsForBlocks }
{
    Ok(Room::Blocks(Vec::with_capacity(alloc, n as usize)?))
}

fn note_bad(bad: &mut Vec<BadBlock>, k: u32, fate: Fate)
    requires { length bad.old.items < vec_capacity bad.old }
    ensures items { bad.new.items ≡ bad.old.items ++ bad_from k (fate ∷ []) }
    ensures capacity { vec_capacity bad.new ≡ vec_capacity bad.old }
{
    if let Fate::Bad(why) = fate {
        bad.push_reserved(BadBlock { k, why });
    }
}

/// The reply of a request whose blocks came to this: all are good, or these are bad.
pub(crate) fn reply_of(fates: &[Fate], room: Room) -> Reply
    requires room { HoldsBad (length fates.now) room }
    requires few { length fates.now < 2 ^ 32 }
    ensures { result ≡ reply_of fates.now room }
{
    let Room::Blocks(mut bad) = room else {
        return Reply::Silent;
    };
    for k in 0..fates.len() {
        note_bad(&mut bad, k as u32, fates[k]);
    }
    if bad.is_empty() {
        Reply::Whole
    } else {
        Reply::Bad(BadList::from_vec(bad))
    }
}

/// The reply of a `show` of these bytes.
pub(crate) fn shown(bytes: &[u8], room: Room) -> Reply
    requires { HoldsShown (length bytes.now) room }
    ensures { result ≡ shown bytes.now room }
{
    let Room::Bytes(mut held) = room else {
        return Reply::Silent;
    };
    for byte in bytes {
        held.push_reserved(*byte);
    }
    Reply::Shown(ByteList::from_vec(held))
}
