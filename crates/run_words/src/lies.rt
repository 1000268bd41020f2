//! Blocks of reads that nobody lists and that aren't what was last accepted.

ghost use Rattle.std.specs.Prelude.{◌≡◌, ◌≤◌, ◌<◌, ◌+◌, ◌^◌, IfNone, IfSome, None, Some, drop, get_or, is_some, length, take};
ghost use Rattle.bio_core.specs.declared.request.Dir.TheVariants.{Write as Out};
ghost use Rattle.fault_schedule.specs.Altered.{altered};
ghost use Rattle.rig_api.specs.Log.{entry_at};
ghost use Rattle.walk_laws.specs.ReadsAs.{listed_among, listed_in};
ghost use Rattle.run_words.specs.Ledgers.{IsKept, book_in, moved_in};
ghost use Rattle.run_words.specs.Lies.{brings, data_of, has_block, is_listed, lie_at, lie_in, older, request_in};

use crate::asked::{Asked, request_in};
use crate::ledger::{Ledger, Spot};
use arrayvec::ArrayVec;
use bio_core::Dir;
use fault_schedule::{Crossing, Label};
use rig_api::Rig;
use stack_ops::{BadBlock, Reply};

/// What a read brought that isn't what was last accepted.
#[derive(Clone, Copy)]
pub enum Lie {
    /// What an earlier accepted write of this run brought: the number of its op.
    Stale(u32),
    /// What no accepted write of this run brought.
    Wrong,
}

/// The data of a block, of at most 4,096 bytes.
type Data = ArrayVec<u8, 4096>;

/// So many bytes from there on, as far as there are.
fn part(bytes: &[u8], at: usize, size: usize) -> &[u8]
    ensures { result.now ≡ take size (drop at bytes.now) }
{
    let (_, rest) = bytes.split_at(at.min(bytes.len()));
    let (front, _) = rest.split_at(size.min(rest.len()));
    front
}

/// These few bytes.
fn copy_of(bytes: &[u8]) -> Data
    requires { length bytes.now ≤ 4096 }
    ensures { result.items ≡ bytes.now }
{
    let mut data = Data::new();
    match data.try_extend_from_slice(bytes) {
        Ok(()) => data,
        Err(_) => unreachable!(),
    }
}

/// Whether block `k` is among these.
fn is_among(blocks: &[BadBlock], k: u32) -> bool
    ensures { result ≡ is_some (listed_among blocks.now k) }
{
    let mut rest = blocks;
    while let Some((block, behind)) = rest.split_first() {
        if block.k == k {
            return true;
        }
        rest = behind;
    }
    false
}

/// Whether a reply lists block `k`.
fn is_listed_in(reply: &Reply, k: u32) -> bool
    ensures { result ≡ is_some (listed_in reply.now k) }
{
    match reply {
        Reply::Silent => false,
        Reply::Whole => false,
        Reply::Bad(blocks) => is_among(blocks.as_slice(), k),
        Reply::Shown(_) => false,
        Reply::Medium => false,
    }
}

/// Whether the reply of op `i`, from 0, lists block `k`.
fn is_listed(replies: &[Reply], i: usize, k: u32) -> bool
    ensures { result ≡ is_listed replies.now i k }
{
    match replies.get(i) {
        Some(reply) => is_listed_in(reply, k),
        None => false,
    }
}

/// Whether an op is a write of this virtual block.
fn writes(asked: Asked, v: u64) -> bool
    ensures { result ≡ has_block Out asked v }
{
    if asked.way != Some(Dir::Write) {
        return false;
    }
    asked.first <= v && v - asked.first < u64::from(asked.count)
}

impl Ledger {
    /// Where the frame of the block at this place begins, if one is on record.
    fn spot(&self, start: u32, k: u32) -> Option<Spot>
        ensures { result ≡ get_or self.now.spots.items (start + k) None }
    {
        match self.spots.get(start as usize + k as usize) {
            Some(spot) => *spot,
            None => None,
        }
    }

    /// The data of the frame that begins there, at the host's end of this crossing.
    fn data_at<R: Rig>(&self, rig: &R, at: Crossing, label: Label, spot: Spot) -> Data
        requires record { spot.number < length (R.state rig.now).log }
        requires size { self.now.size ≤ 4096 }
        ensures { result.items ≡ altered self.now.tamper at label (take self.now.size (drop spot.at (entry_at (R.state rig.now).log spot.number).moved)) }
    {
        let mut data = copy_of(part(rig.moved(spot.number), spot.at, self.size as usize));
        self.tamper.apply(at, label, data.as_mut_slice());
        data
    }

    /// The data of block `k` of op `i`, from 0, at the host's end, where a command moved it and its reply doesn't list it.
    fn data_of<R: Rig>(
        &self,
        rig: &R,
        replies: &[Reply],
        at: Crossing,
        i: usize,
        k: u32,
    ) -> Option<Data>
        requires kept { IsKept self.now (R.state rig.now).log }
        requires within { k < (request_in self.now.asked.items i).count }
        ensures some { IfSome result (λ d. data_of (book_in self.now) (moved_in self.now (R.state rig.now).log) replies.now at i k ≡ Some d.items) }
        ensures none { IfNone result (data_of (book_in self.now) (moved_in self.now (R.state rig.now).log) replies.now at i k ≡ None) }
    {
        let asked = request_in(self.asked.as_slice(), i);
        let spot = self.spot(asked.start, k)?;
        if is_listed(replies, i, k) {
            return None;
        }
        let label = Label {
            op: i as u32 + 1,
            k,
        };
        Some(self.data_at(rig, at, label, spot))
    }

    /// Whether an accepted write of op `i`, from 0, brought these data for a virtual block; none where there is no such write.
    fn brings<R: Rig>(
        &self,
        rig: &R,
        replies: &[Reply],
        came: &[u8],
        v: u64,
        i: usize,
    ) -> Option<bool>
        requires kept { IsKept self.now (R.state rig.now).log }
        ensures { result ≡ brings (book_in self.now) (moved_in self.now (R.state rig.now).log) replies.now came.now v i }
    {
        let asked = request_in(self.asked.as_slice(), i);
        if !writes(asked, v) {
            return None;
        }
        let k = (v - asked.first) as u32;
        let data = self.data_of(rig, replies, Crossing::HostToAdapter, i, k)?;
        Some(data.as_slice() == came)
    }

    /// The newest of the ops before op `i`, from 0, that brought these data for a virtual block.
    fn older<R: Rig>(&self, rig: &R, replies: &[Reply], came: &[u8], v: u64, i: usize) -> Lie
        requires kept { IsKept self.now (R.state rig.now).log }
        requires within { i ≤ length self.now.asked.items }
        ensures { result ≡ older (book_in self.now) (moved_in self.now (R.state rig.now).log) replies.now came.now v i }
    {
        let mut i = i;
        while i > 0 {
            i -= 1;
            if self.brings(rig, replies, came, v, i) == Some(true) {
                return Lie::Stale(i as u32 + 1);
            }
        }
        Lie::Wrong
    }

    /// What is wrong with the data that came of a virtual block for op `i`, from 0.
    fn lie_in<R: Rig>(
        &self,
        rig: &R,
        replies: &[Reply],
        came: &[u8],
        v: u64,
        i: usize,
    ) -> Option<Lie>
        requires kept { IsKept self.now (R.state rig.now).log }
        requires within { i ≤ length self.now.asked.items }
        ensures { result ≡ lie_in (book_in self.now) (moved_in self.now (R.state rig.now).log) replies.now came.now v i }
    {
        let mut i = i;
        while i > 0 {
            i -= 1;
            match self.brings(rig, replies, came, v, i) {
                None => {}
                Some(true) => return None,
                Some(false) => return Some(self.older(rig, replies, came, v, i)),
            }
        }
        None
    }

    /// What is wrong with block `k` of op `i`, from 0, if it is a read and nobody lists the block.
    pub(crate) fn lie_at<R: Rig>(&self, rig: &R, replies: &[Reply], i: usize, k: u32) -> Option<Lie>
        requires kept { IsKept self.now (R.state rig.now).log }
        requires op { i < length self.now.asked.items }
        requires within { k < (request_in self.now.asked.items i).count }
        requires fits { (request_in self.now.asked.items i).first + k < 2 ^ 64 }
        ensures { result ≡ lie_at (book_in self.now) (moved_in self.now (R.state rig.now).log) replies.now i k }
    {
        let asked = request_in(self.asked.as_slice(), i);
        if asked.way != Some(Dir::Read) {
            return None;
        }
        let data = self.data_of(rig, replies, Crossing::AdapterToHost, i, k)?;
        let v = asked.first + u64::from(k);
        self.lie_in(rig, replies, data.as_slice(), v, i)
    }
}
