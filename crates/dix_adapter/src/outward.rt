//! Blocks on their way out.

ghost use Rattle.std.specs.Prelude.{◌≡◌, true, false, ℕ, List, ◌&&◌, not, if◌then◌else◌, [], ◌+◌, ◌*◌, ◌<◌, ◌≤◌, ◌^◌, ◌++◌, length, map, replicate, take, drop};
ghost use Rattle.std.specs.List.{All};
ghost use Rattle.std.specs.Vec.{vec_capacity};
ghost use Rattle.bio_core.specs.Bios.{block_size, blocks_of};
ghost use Rattle.page_pool.specs.Cells.{flat, gather};
ghost use Rattle.page_pool.specs.Pages.{AreWhole};
ghost use Rattle.block_path.specs.Routes.{wire_size};
ghost use Rattle.block_path.specs.WayOut.{to_wire};
ghost use Rattle.rig_api.specs.Passed.{unless};
ghost use Rattle.bio_core.specs.declared.fate.Fate.TheVariants.{Good};
ghost use Rattle.cdb_codec.specs.Forms.{Fits};
ghost use Rattle.cdb_codec.specs.declared.choice.Dir2.TheVariants.{Out};
ghost use Rattle.pi_tuple.specs.Finds.{is_zero};
ghost use Rattle.dix_adapter.specs.Carried.{Gathers, WasSent, Unsent, any_fails, command_for, fails, is_bad_write, out_of, sends, sends_first, unsent};
ghost use Rattle.dix_adapter.specs.Walking.{HasBlock, WentPast, cells_ahead};
ghost use Rattle.dix_adapter.specs.Outcomes.{done_of as spec_done, rest_of};
ghost use Rattle.dix_adapter.specs.Room.{KeepsScratch};
ghost use Rattle.bio_core.specs.declared.request.Dir.TheVariants.{Write};
ghost use Rattle.dix_adapter.specs.Groups.{EndsInTime, IsCarriedGroup, IsProtect, block_len, blocks_in, first_of, label_of, route_by, size};
ghost use Rattle.dix_adapter.specs.Carrying.{CanCarry};
ghost use Rattle.dix_adapter.specs.OnTheWay.{CanGo};
ghost use Rattle.pi_tuple.specs.declared.TheConstants.{LARGEST_BLOCK};

use crate::Adapter;
use crate::outcome::{add_rest, done_of};
use crate::scratch::Scratch;
use crate::walks::Walks;
use bio_core::{Bio, Fate, Io, Why};
use cdb_codec::{Cdb, Dir2, choose};
use fault_schedule::Label;
use page_pool::PagePool;
use pi_tuple::{Check, TUPLE};
use rig_api::{Outcome, Rig};

impl Adapter {
    /// Carries the blocks of a write: all are checked, and sent where none is bad.
    pub(crate) fn carry_out<R: Rig>(
        &self,
        pool: &PagePool,
        ios: &[Io],
        req: &[Bio],
        rig: &mut R,
        scratch: &mut Scratch,
        fates: &mut Vec<Fate>,
    )
        requires can { CanCarry self.now pool.now ios.now req.now scratch.old (vec_capacity fates.old) (R.state rig.old) }
        requires way { (first_of req.now).dir ≡ Write }
        requires none { fates.old.items ≡ [] }
        ensures unsent { is_bad_write self.now ios.now req.now (flat pool.now) ≡ true
            → Unsent self.now ios.now req.now pool.now pool.now fates.new.items × (rig.new ≡ rig.old) }
        ensures sent { is_bad_write self.now ios.now req.now (flat pool.now) ≡ false
            → WasSent self.now ios.now req.now pool.now pool.now fates.new.items (R.state rig.old) (R.state rig.new) }
        ensures scratch { KeepsScratch (block_len ios.now req.now) (size req.now) scratch.old scratch.new }
        ensures capacity { vec_capacity fates.new ≡ vec_capacity fates.old }
    {
        // A look for the proof: the pages are whole.
        let _pages = pool.pages();
        let end = self.gather(pool, ios, req, &mut scratch.frames, fates);
        if has_bad(fates) {
            return;
        }
        let count = fill_labels(req, &mut scratch.labels);
        let cdb = self.command(req, Dir2::Out, count).encode();
        let (dev, out) = (req[0].dev, &scratch.frames[..end]);
        let outcome = rig.exchange(dev, &cdb, &scratch.labels, out, &mut []);
        set_fates(&outcome, count, fates);
    }

    /// Gathers the frames of a group, one after another, as they are sent, and judges each block. Answers where the
    /// last one ends.
    fn gather(
        &self,
        pool: &PagePool,
        ios: &[Io],
        req: &[Bio],
        frames: &mut [u8],
        fates: &mut Vec<Fate>,
    ) -> usize
        requires group { (bytes : ℕ) × IsCarriedGroup self.now pool.now bytes ios.now req.now }
        requires whole { AreWhole pool.now }
        requires none { fates.old.items ≡ [] }
        requires room { size req.now * (block_len ios.now req.now + TUPLE) + TUPLE ≤ length frames.old }
        requires fates { size req.now ≤ vec_capacity fates.old }
        ensures fates { fates.new.items ≡ map unsent (map (sends self.now ios.now (flat pool.now)) (blocks_in req.now)) }
        ensures frames { is_bad_write self.now ios.now req.now (flat pool.now) ≡ false
            → take result frames.new ≡ out_of self.now ios.now req.now pool.now }
        ensures within { result ≤ length frames.new }
        ensures long { length frames.new ≡ length frames.old }
        ensures capacity { vec_capacity fates.new ≡ vec_capacity fates.old }
    {
        let mut at = 0usize;
        for bio in req {
            at = self.gather_bio(pool, &ios[bio.op as usize - 1], bio, frames, at, fates);
        }
        at
    }

    /// Gathers the frames of a bio's blocks, from a place on, and adds what became of each. Answers where the last one
    /// ends.
    fn gather_bio(
        &self,
        pool: &PagePool,
        io: &Io,
        bio: &Bio,
        frames: &mut [u8],
        from: usize,
        fates: &mut Vec<Fate>,
    ) -> usize
        requires can { CanGo self.now pool.now io.now bio.now }
        requires small { block_size io.now ≤ LARGEST_BLOCK }
        requires room { from + bio.now.count * (block_size io.now + TUPLE) + TUPLE ≤ length frames.old }
        requires fates { length fates.old.items + bio.now.count ≤ vec_capacity fates.old }
        ensures fates { fates.new.items ≡ fates.old.items ++ map unsent (sends_first self.now io.now bio.now (flat pool.now) bio.now.count) }
        ensures frames { Gathers self.now io.now bio.now (flat pool.now) bio.now.count from frames.old frames.new }
        ensures end { result ≡ from + bio.now.count * wire_size (route_by self.now io.now bio.now 0) }
        ensures long { length frames.new ≡ length frames.old }
        ensures capacity { vec_capacity fates.new ≡ vec_capacity fates.old }
    {
        let mut walks = Walks::of(io, self.route(io, bio));
        let step = walks.wire_size();
        let mut at = from;
        for _ in 0..bio.count {
            let route = walks.route;
            let (_, rest) = frames.split_at_mut(at);
            let (frame, _) = rest.split_at_mut(route.size as usize + TUPLE);
            walks.read(pool, frame);
            fates.push_reserved(fate_out(route.to_wire(&self.tamper, frame)));
            at += step;
        }
        at
    }

    /// The bytes of a frame on the wire.
    pub(crate) fn wire_size(&self, size: usize) -> usize
        requires { size + TUPLE < 2 ^ 32 }
        ensures { result ≡ (if self.now.dif && not (is_zero self.now.ty) then size + TUPLE else size) }
    {
        if self.mode().passes_tuples(self.ty) {
            size + TUPLE
        } else {
            size
        }
    }

    /// The command for a group of so many blocks.
    pub(crate) fn command(&self, req: &[Bio], dir: Dir2, count: u32) -> Cdb
        requires protect { IsProtect self.now.protect }
        requires some { 1 ≤ length req.now }
        requires count { 1 ≤ count }
        requires ends { (first_of req.now).lba + count < 2 ^ 64 }
        ensures command { result ≡ command_for self.now dir (first_of req.now).lba count }
        ensures fits { Fits result }
    {
        let protect = self.mode().field(self.ty);
        choose(
            self.ty, dir, req[0].lba, count, protect, self.app, self.mask,
        )
    }
}

/// The labels of a group's blocks in order, and how many they are.
pub(crate) fn fill_labels(req: &[Bio], labels: &mut Vec<Label>) -> u32
    requires small { size req.now < 2 ^ 32 }
    requires ends { All EndsInTime req.now }
    requires room { size req.now ≤ vec_capacity labels.old }
    ensures labels { labels.new.items ≡ map label_of (blocks_in req.now) }
    ensures count { result ≡ size req.now }
    ensures capacity { vec_capacity labels.new ≡ vec_capacity labels.old }
{
    labels.clear();
    for bio in req {
        add_labels(bio, labels);
    }
    labels.len() as u32
}

fn add_labels(bio: &Bio, labels: &mut Vec<Label>)
    requires ends { EndsInTime bio.now }
    requires room { length labels.old.items + bio.now.count ≤ vec_capacity labels.old }
    ensures labels { labels.new.items ≡ labels.old.items ++ map label_of (blocks_of bio.now) }
    ensures capacity { vec_capacity labels.new ≡ vec_capacity labels.old }
{
    for i in 0..bio.count {
        labels.push_reserved(Label {
            op: bio.op,
            k: bio.k + i,
        });
    }
}

fn fate_out(found: Option<Check>) -> Fate
    ensures { (frame : List ℕ) → result ≡ unsent (unless found frame) }
{
    match found {
        Some(check) => Fate::Bad(Why::Adapter(check)),
        None => Fate::Untouched,
    }
}

/// What became of so many blocks that were sent.
fn set_fates(outcome: &Outcome, count: u32, fates: &mut Vec<Fate>)
    requires { count ≤ vec_capacity fates.old }
    ensures items { fates.new.items ≡ replicate (spec_done count outcome.now) Good ++ rest_of count outcome.now }
    ensures capacity { vec_capacity fates.new ≡ vec_capacity fates.old }
{
    fates.clear();
    for _ in 0..done_of(outcome, count) {
        fates.push_reserved(Fate::Good);
    }
    add_rest(outcome, count, fates);
}

fn is_bad(fate: Fate) -> bool
    ensures { result ≡ fails fate }
{
    matches!(fate, Fate::Bad(_))
}

fn has_bad(fates: &[Fate]) -> bool
    ensures { result ≡ any_fails fates.now }
{
    for fate in fates {
        if is_bad(*fate) {
            return true;
        }
    }
    false
}
