//! Blocks on their way in.

ghost use Rattle.std.specs.Prelude.{◌≡◌, ℕ, ◌+◌, ◌*◌, ◌<◌, ◌≤◌, ◌^◌, ◌++◌, List, [], length, take, drop};
ghost use Rattle.std.specs.Vec.{vec_capacity};
ghost use Rattle.page_pool.specs.Cells.{flat};
ghost use Rattle.page_pool.specs.Pages.{AreWhole};
ghost use Rattle.bio_core.specs.Bios.{block_size};
ghost use Rattle.rig_api.specs.Passed.{unless};
ghost use Rattle.bio_core.specs.declared.request.Dir.TheVariants.{Read};
ghost use Rattle.cdb_codec.specs.Forms.{Fits, form};
ghost use Rattle.cdb_codec.specs.declared.choice.Dir2.TheVariants.{In};
ghost use Rattle.rig_api.specs.Log.{HasRoom};
ghost use Rattle.rig_api.specs.Telling.{greatest_size};
ghost use Rattle.rig_api.specs.State.{Exchanged};
ghost use Rattle.dix_adapter.specs.Room.{KeepsScratch};
ghost use Rattle.block_path.specs.Routes.{wire_size};
ghost use Rattle.dix_adapter.specs.Carried.{Fetched, carried, command_for, land};
ghost use Rattle.dix_adapter.specs.Groups.{IsCarriedGroup, IsProtect, block_len, first_of, route_by, size};
ghost use Rattle.dix_adapter.specs.Walking.{BlockOnce, HasBlock, IsOnce, WentPast, cells_ahead};
ghost use Rattle.dix_adapter.specs.Carrying.{CanCarry};
ghost use Rattle.dix_adapter.specs.OnTheWay.{CanGo, HasLanded, HasLandedFirst, HasLandedNext, KeepsBehind};
ghost use Rattle.pi_tuple.specs.declared.TheConstants.{LARGEST_BLOCK};

use crate::Adapter;
use crate::outcome::{add_rest, done_of};
use crate::outward::fill_labels;
use crate::scratch::Scratch;
use crate::walks::Walks;
use bio_core::{Bio, Fate, Io, Why};
use cdb_codec::Dir2;
use fault_schedule::Label;
use page_pool::PagePool;
use pi_tuple::{Check, TUPLE};
use rig_api::{Outcome, Rig};

impl Adapter {
    /// Carries the blocks of a read: those that came are checked, and the good ones land.
    pub(crate) fn carry_in<R: Rig>(
        &self,
        pool: &mut PagePool,
        ios: &[Io],
        req: &[Bio],
        rig: &mut R,
        scratch: &mut Scratch,
        fates: &mut Vec<Fate>,
    )
        requires can { CanCarry self.now pool.old ios.now req.now scratch.old (vec_capacity fates.old) (R.state rig.old) }
        requires way { (first_of req.now).dir ≡ Read }
        requires none { fates.old.items ≡ [] }
        ensures fetched { Fetched self.now ios.now req.now pool.old pool.new fates.new.items (R.state rig.old) (R.state rig.new) }
        ensures scratch { KeepsScratch (block_len ios.now req.now) (size req.now) scratch.old scratch.new }
        ensures capacity { vec_capacity fates.new ≡ vec_capacity fates.old }
    {
        // A look for the proof: the pages are whole.
        let _pages = pool.pages();
        let count = fill_labels(req, &mut scratch.labels);
        let size = ios[req[0].op as usize - 1].block_size() as usize;
        let len = count as usize * self.wire_size(size);
        let outcome = self.fetch(req, count, len, rig, &scratch.labels, &mut scratch.frames);
        self.land(
            pool,
            ios,
            req,
            done_of(&outcome, count),
            &mut scratch.frames,
            fates,
        );
        add_rest(&outcome, count, fates);
    }

    /// Has the frames of a group, so many bytes, sent by its device to the front of the buffer.
    fn fetch<R: Rig>(
        &self,
        req: &[Bio],
        count: u32,
        len: usize,
        rig: &mut R,
        labels: &[Label],
        frames: &mut [u8],
    ) -> Outcome
        requires protect { IsProtect self.now.protect }
        requires some { 1 ≤ length req.now }
        requires count { 1 ≤ count }
        requires ends { (first_of req.now).lba + count < 2 ^ 64 }
        requires device { (first_of req.now).dev < (R.state rig.old).standing.devices }
        requires long { len ≤ length frames.old }
        requires spare { HasRoom (greatest_size (R.state rig.old).standing) 1 count (R.state rig.old).room }
        ensures fits { Fits (command_for self.now In (first_of req.now).lba count) }
        ensures exchanged { Exchanged (R.state rig.old) (R.state rig.new)
            (first_of req.now).dev (form (command_for self.now In (first_of req.now).lba count)) labels.now [] (take len frames.old) (take len frames.new) result }
        ensures long { length frames.new ≡ length frames.old }
    {
        let cdb = self.command(req, Dir2::In, count);
        let (into, _) = frames.split_at_mut(len);
        rig.exchange(req[0].dev, &cdb.encode(), labels, &[], into)
    }

    /// Lands the first blocks of a group, so many of them, whose frames stand one after another.
    fn land(
        &self,
        pool: &mut PagePool,
        ios: &[Io],
        req: &[Bio],
        done: u32,
        frames: &mut [u8],
        fates: &mut Vec<Fate>,
    )
        requires group { (bytes : ℕ) × IsCarriedGroup self.now pool.old bytes ios.now req.now }
        requires way { (first_of req.now).dir ≡ Read }
        requires whole { AreWhole pool.old }
        requires done { done ≤ size req.now }
        requires none { fates.old.items ≡ [] }
        requires room { size req.now * (block_len ios.now req.now + TUPLE) + TUPLE ≤ length frames.old }
        requires fates { size req.now ≤ vec_capacity fates.old }
        ensures landed { HasLanded self.now ios.now req.now done frames.old pool.old pool.new fates.new.items }
        ensures long { length frames.new ≡ length frames.old }
        ensures capacity { vec_capacity fates.new ≡ vec_capacity fates.old }
    {
        let mut left = done;
        let mut at = 0usize;
        for bio in req {
            let count = bio.count.min(left);
            let (_, rest) = frames.split_at_mut(at);
            at += self.land_bio(pool, &ios[bio.op as usize - 1], bio, count, rest, fates);
            left -= count;
        }
    }

    /// Lands the first blocks of a bio, so many of them, whose frames stand one after another at the front of these
    /// bytes. Adds what became of each, and answers how many bytes the frames take.
    fn land_bio(
        &self,
        pool: &mut PagePool,
        io: &Io,
        bio: &Bio,
        count: u32,
        frames: &mut [u8],
        fates: &mut Vec<Fate>,
    ) -> usize
        requires can { CanGo self.now pool.old io.now bio.now }
        requires once { IsOnce io.now }
        requires few { count ≤ bio.now.count }
        requires small { block_size io.now ≤ LARGEST_BLOCK }
        requires room { count * wire_size (route_by self.now io.now bio.now 0) + TUPLE ≤ length frames.old }
        requires fates { length fates.old.items + count ≤ vec_capacity fates.old }
        ensures landed { HasLandedFirst self.now io.now bio.now count frames.old pool.old pool.new fates.old.items fates.new.items }
        ensures size { result ≡ count * wire_size (route_by self.now io.now bio.now 0) }
        ensures behind { KeepsBehind result frames.old frames.new }
        ensures capacity { vec_capacity fates.new ≡ vec_capacity fates.old }
    {
        let mut walks = Walks::of(io, self.route(io, bio));
        let step = walks.wire_size();
        let mut at = 0usize;
        for _ in 0..count {
            fates.push_reserved(self.land_next(pool, &mut walks, frames, at));
            at += step;
        }
        at
    }

    /// Lands the next block, whose frame begins at a place, and says what became of it.
    fn land_next(
        &self,
        pool: &mut PagePool,
        walks: &mut Walks<'_>,
        frames: &mut [u8],
        at: usize,
    ) -> Fate
        requires block { HasBlock pool.old walks.old }
        requires once { BlockOnce walks.old }
        requires room { at + (walks.old.route.size + TUPLE) ≤ length frames.old }
        ensures landed { HasLandedNext self.now walks.old (drop at frames.old) pool.old pool.new result }
        ensures past { WentPast walks.old walks.new }
        ensures behind { KeepsBehind (at + wire_size walks.old.route) frames.old frames.new }
    {
        let (_, rest) = frames.split_at_mut(at);
        let (frame, _) = rest.split_at_mut(walks.route.size as usize + TUPLE);
        self.receive(pool, walks, frame)
    }

    /// Judges the frame of the next block, and lets it land where it is good. Where no tuple came, the eight bytes
    /// behind the data are those of the block behind it, and they are left as they were.
    fn receive(&self, pool: &mut PagePool, walks: &mut Walks<'_>, frame: &mut [u8]) -> Fate
        requires block { HasBlock pool.old walks.old }
        requires once { BlockOnce walks.old }
        requires long { length frame.old ≡ walks.old.route.size + TUPLE }
        ensures landed { HasLandedNext self.now walks.old frame.old pool.old pool.new result }
        ensures past { WentPast walks.old walks.new }
        ensures behind { KeepsBehind (wire_size walks.old.route) frame.old frame.new }
    {
        let size = walks.route.size as usize;
        let mut behind = [0u8; TUPLE];
        behind.copy_from_slice(&frame[size..]);
        let found = walks.route.from_wire(&self.tamper, frame);
        deliver(found, pool, walks, frame);
        frame[size..].copy_from_slice(&behind);
        fate_in(found)
    }
}

/// Lets a block land in which nothing was found, and else goes past it.
fn deliver(found: Option<Check>, pool: &mut PagePool, walks: &mut Walks<'_>, frame: &[u8])
    requires block { HasBlock pool.old walks.old }
    requires once { BlockOnce walks.old }
    requires long { length frame.now ≡ walks.old.route.size + TUPLE }
    ensures cells { flat pool.new ≡ land (cells_ahead walks.old) (unless found frame.now) (flat pool.old) }
    ensures pages { length pool.new ≡ length pool.old }
    ensures whole { AreWhole pool.new }
    ensures past { WentPast walks.old walks.new }
{
    match found {
        Some(_) => walks.skip(),
        None => walks.write(pool, frame),
    }
}

fn fate_in(found: Option<Check>) -> Fate
    ensures { (frame : List ℕ) → result ≡ carried (unless found frame) }
{
    match found {
        Some(check) => Fate::Bad(Why::Adapter(check)),
        None => Fate::Good,
    }
}
