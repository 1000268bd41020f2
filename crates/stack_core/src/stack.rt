//! The stack and its steps.

ghost use Rattle.std.specs.Prelude.{◌≡◌, ◌<◌, ◌≤◌, ◌+◌, ◌*◌, ◌↔◌, ◌^◌, ◌⊎◌, ℕ, IsTrue, true, false, List, [], Some, is_some, length, slice_index_or, slice_set};
ghost use Rattle.stack_laws.specs.Runs.{blocks_of_requests};
ghost use Rattle.stack_laws.specs.Steps.{enabled};
ghost use Rattle.stack_laws.specs.View.{View};
ghost use Rattle.stack_steps.specs.declared.choice.Choice.TheVariants.{End, Complete, Admit, Cut, Join, Send};
ghost use Rattle.stack_steps.specs.Does.{Does, Holds, Ready};
ghost use Rattle.stack_core.specs.declared.kept.Room.TheVariants.{Nothing};
ghost use Rattle.stack_walk_laws.specs.Settling.{HasTuples, IsWhole};
ghost use Rattle.stack_core.specs.Replies.{HoldsSeal};
ghost use Rattle.stack_ops.specs.declared.reply.Reply.TheVariants.{Medium, Silent};
ghost use Rattle.stack_core.specs.Done.{MadeBy, OpDone, Sealed, WriteMade, WriteMapped};
ghost use Rattle.stack_core.specs.Doing.{CanDo, CanReach, HasChangedBlocks};
ghost use Rattle.stack_core.specs.Walking.{Enters, IsChosen, IsKnown, LeavesOwn, WalksOn, is_medium, units_left};
ghost use Rattle.dix_base.specs.Told.{Calm};
ghost use Rattle.fault_schedule.specs.declared.fault.FaultLine.{FaultLine};
ghost use Rattle.rig_api.specs.Telling.{block_at, changed, frame_size, unit_at, with_block};
ghost use Rattle.rig_api.specs.State.{Stays as RigStays};
ghost use Rattle.rig_api.specs.Target.{Stored};
ghost use Rattle.stack_core.specs.Mediums.{Counts, Spoils, medium_replies};
ghost use Rattle.stack_core.specs.OnRecord.{Carries, SendsOn, Traces};
ghost use Rattle.stack_core.specs.Stacks.{GoesOn, HasStep, IsStack, StackStays, Steps, plan_in};
ghost use Rattle.stack_core.specs.Going.{AdmitsOver, FailsCounted, SettlesNone, StandsOver, Went};

use crate::kept::{Fates, Room, reply_of, shown};
use crate::settle::{Settling, settle_all};
use crate::sheet::Sheet;
use bio_core::{Bio, Dir, Fate, Io};
use dix_adapter::{Adapter, Scratch};
use integrity_payload::{Owner, Payload};
use page_pool::{PagePool, SgList};
use pi_guard::GuardKind;
use pi_tuple::PiType;
use ref_remap::map_out;
use rig_api::{Change, Rig};
use stack_ops::{Op, Reply, fill, put};
use stack_steps::{Choice, Machine};

/// Ops in flight over a rig: those that are requests are cut into pieces, joined, sent, partly done and sent again, in
/// the order that the words choose.
#[derive(Drop)]
pub struct Stack {
    pub(crate) sheet: Sheet,
    pub(crate) machine: Machine,
    pub(crate) adapter: Adapter,
    /// The type of the tuples in the host's memory.
    pub(crate) host: PiType,
    pub(crate) pool: PagePool,
    pub(crate) scratch: Scratch,
    /// The bios of one command, and the fates of its blocks.
    pub(crate) group: Vec<Bio>,
    pub(crate) fates: Vec<Fate>,
    pub(crate) kept: Fates,
    pub(crate) rooms: Vec<Room>,
    pub(crate) replies: Vec<Reply>,
}

impl Stack {
    /// The number of steps that may be taken next: 0 exactly where all ops have ended.
    pub fn enabled(&self) -> u32
        requires { IsStack self.now }
        ensures { (v : View) → Holds (plan_in self.now.sheet) self.now.machine v → result ≡ length (enabled (plan_in self.now.sheet) v) }
    {
        self.machine.enabled(&self.sheet)
    }

    /// Whether all ops have ended.
    pub fn finished(&self) -> bool
        requires { IsStack self.now }
        ensures { (v : View) → Holds (plan_in self.now.sheet) self.now.machine v → IsTrue result ↔ enabled (plan_in self.now.sheet) v ≡ [] }
    {
        self.machine.finished()
    }

    /// What each op replied, once it has ended.
    pub fn replies(&self) -> &[Reply]
        ensures { result.now ≡ self.now.replies.items }
    {
        self.replies.as_slice()
    }

    /// The pages.
    pub fn pool(&self) -> &PagePool
        ensures { result.now ≡ self.now.pool }
    {
        &self.pool
    }

    /// How many steps were done: at most two for each op and five for each block.
    pub fn steps(&self) -> u64
        ensures value { result ≡ self.now.machine.steps }
        ensures most { IsStack self.now → result ≤ 2 * length self.now.sheet.ops + 5 * blocks_of_requests (plan_in self.now.sheet).requests }
    {
        self.machine.steps()
    }

    /// How many blocks all requests have.
    pub fn blocks(&self) -> u32
        requires { IsStack self.now }
        ensures value { result ≡ length self.now.kept.held.items }
        ensures all { result ≡ blocks_of_requests (plan_in self.now.sheet).requests }
    {
        self.kept.blocks()
    }

    /// Does the step of a word: number `word` modulo the number of steps that may be taken, of which there is one. A
    /// piece is the greatest one for a cut of 0, else `1 + (cut - 1) mod n` blocks of the greatest one's `n`.
    pub fn step<R: Rig>(&mut self, word: u32, cut: u32, rig: &mut R)
        requires stands { StandsOver self.old (R.state rig.old) }
        requires some { HasStep (plan_in self.old.sheet) self.old.machine }
        ensures stands { StandsOver self.new (R.state rig.new) }
        ensures stays { StackStays self.old self.new }
        ensures step { Steps (plan_in self.old.sheet) self.old.machine word cut self.new.machine }
        ensures rig { RigStays (R.state rig.old) (R.state rig.new) }
        ensures goes { GoesOn (R.state rig.old) (R.state rig.new) }
        ensures went { Went self.old (R.state rig.old) self.new (R.state rig.new) }
        ensures sends { SendsOn word cut self.old self.new (R.state rig.old).log (R.state rig.new).log }
    {
        let choice = self.machine.choose(&self.sheet, word);
        match choice {
            Choice::End(q) => self.end(q),
            Choice::Complete(i) => self.complete(i),
            Choice::Admit(q) => self.admit(q, rig),
            Choice::Cut(q) => self.cut(q, cut),
            Choice::Join(d, i, j) => self.join(d, i, j),
            Choice::Send(d, i) => self.send(d, i, rig),
        }
    }

    fn end(&mut self, q: usize)
        requires stack { IsStack self.old }
        requires ready { Ready (plan_in self.old.sheet) self.old.machine (End q) }
        ensures stack { IsStack self.new }
        ensures stays { StackStays self.old self.new }
        ensures step { (cut : ℕ) → Does (plan_in self.old.sheet) self.old.machine (End q) cut self.new.machine }
        ensures walks { IsChosen self.old (End q) → WalksOn self.old self.new }
        ensures kept { self.new.kept ≡ self.old.kept }
        ensures few { medium_replies self.new.replies.items ≤ medium_replies self.old.replies.items }
    {
        let op = self.machine.end(q) as usize;
        let room = take_room(&mut self.rooms, op);
        let fates = self.kept.of(op, self.sheet.request(op).count);
        set_reply(&mut self.replies, op, reply_of(fates, room));
    }

    fn complete(&mut self, i: u32)
        requires stack { IsStack self.old }
        requires ready { Ready (plan_in self.old.sheet) self.old.machine (Complete i) }
        ensures stack { IsStack self.new }
        ensures stays { StackStays self.old self.new }
        ensures step { (cut : ℕ) → Does (plan_in self.old.sheet) self.old.machine (Complete i) cut self.new.machine }
        ensures walks { IsChosen self.old (Complete i) → WalksOn self.old self.new }
        ensures replies { self.new.replies.items ≡ self.old.replies.items }
        ensures traces { Traces (plan_in self.old.sheet) self.old.machine (Complete i) self.old.kept.starts.items self.old.kept.held.items self.new.kept.starts.items self.new.kept.held.items }
        ensures counts { (faults : List FaultLine) → Counts faults self.old.sheet.ios.items (plan_in self.old.sheet) self.old.machine (Complete i) self.old.kept.held.items self.new.kept.held.items }
    {
        self.machine
            .complete(&self.sheet, i, &mut self.group, &mut self.fates);
        settle_all(
            &mut self.pool,
            self.sheet.ios(),
            Settling {
                mode: self.adapter.mode(),
                ty: self.host,
            },
            &self.group,
            &self.fates,
            &mut self.kept,
        );
    }

    fn admit<R: Rig>(&mut self, q: usize, rig: &mut R)
        requires stands { StandsOver self.old (R.state rig.old) }
        requires ready { Ready (plan_in self.old.sheet) self.old.machine (Admit q) }
        ensures stack { IsStack self.new }
        ensures stays { StackStays self.old self.new }
        ensures step { (cut : ℕ) → Does (plan_in self.old.sheet) self.old.machine (Admit q) cut self.new.machine }
        ensures walks { IsChosen self.old (Admit q) → Enters (R.state rig.old) (R.state rig.new) self.old self.new }
        ensures fails { FailsCounted self.old.replies.items self.new.replies.items (R.state rig.old).faults (R.state rig.new).faults }
        ensures rig { AdmitsOver self.old.sheet.ops (R.state rig.old) (R.state rig.new) }
        ensures kept { self.new.kept ≡ self.old.kept }
    {
        let op = self.machine.admit(&self.sheet, q) as usize;
        if self.sheet.request(op).count > 0 {
            make_tuples(
                &mut self.pool,
                self.sheet.request(op),
                self.adapter.kind,
                self.host,
            );
            return;
        }
        let room = take_room(&mut self.rooms, op);
        let done = do_op(
            &mut self.pool,
            self.sheet.op(op),
            self.adapter.kind,
            room,
            rig,
        );
        set_reply(&mut self.replies, op, done);
    }

    fn cut(&mut self, q: usize, size: u32)
        requires stack { IsStack self.old }
        requires ready { Ready (plan_in self.old.sheet) self.old.machine (Cut q) }
        ensures stack { IsStack self.new }
        ensures stays { StackStays self.old self.new }
        ensures step { Does (plan_in self.old.sheet) self.old.machine (Cut q) size self.new.machine }
        ensures walks { IsChosen self.old (Cut q) → WalksOn self.old self.new }
        ensures settles { SettlesNone self.old self.new }
    {
        let bio = self.machine.cut(&self.sheet, q, size);
        map_piece(
            &mut self.pool,
            self.sheet.request(bio.op as usize - 1),
            self.host,
            &bio,
        );
    }

    fn join(&mut self, d: u32, i: u32, j: u32)
        requires stack { IsStack self.old }
        requires ready { Ready (plan_in self.old.sheet) self.old.machine (Join d i j) }
        ensures stack { IsStack self.new }
        ensures stays { StackStays self.old self.new }
        ensures step { (cut : ℕ) → Does (plan_in self.old.sheet) self.old.machine (Join d i j) cut self.new.machine }
        ensures walks { IsChosen self.old (Join d i j) → WalksOn self.old self.new }
        ensures settles { SettlesNone self.old self.new }
    {
        self.machine.join(d, i, j);
    }

    fn send<R: Rig>(&mut self, d: u32, i: u32, rig: &mut R)
        requires stands { StandsOver self.old (R.state rig.old) }
        requires ready { Ready (plan_in self.old.sheet) self.old.machine (Send d i) }
        ensures stands { StandsOver self.new (R.state rig.new) }
        ensures stays { StackStays self.old self.new }
        ensures went { IsChosen self.old (Send d i) → Went self.old (R.state rig.old) self.new (R.state rig.new) }
        ensures settles { SettlesNone self.old self.new }
        ensures rig { RigStays (R.state rig.old) (R.state rig.new) }
        ensures goes { GoesOn (R.state rig.old) (R.state rig.new) }
        ensures carries { Carries self.old.adapter (plan_in self.old.sheet) self.old.machine d i self.new.machine (R.state rig.old).log (R.state rig.new).log }
        ensures spoils { Spoils (plan_in self.old.sheet) self.old.machine d i self.new.machine (R.state rig.old).armed (R.state rig.old).faults (R.state rig.new).faults }
    {
        self.machine.take(d, i, &mut self.group);
        self.adapter.carry(
            &mut self.pool,
            self.sheet.ios(),
            &self.group,
            rig,
            &mut self.scratch,
            &mut self.fates,
        );
        self.machine.fly(d, &self.group, &self.fates);
    }
}

/// Takes the room of an op.
fn take_room(rooms: &mut Vec<Room>, op: usize) -> Room
    requires { op < length rooms.old.items }
    ensures room { result ≡ slice_index_or rooms.old.items op Nothing }
    ensures rooms { rooms.new.items ≡ slice_set rooms.old.items op Nothing }
{
    std::mem::replace(&mut rooms[op], Room::Nothing)
}

fn set_reply(replies: &mut Vec<Reply>, op: usize, reply: Reply)
    requires { op < length replies.old.items }
    ensures { replies.new.items ≡ slice_set replies.old.items op reply }
{
    replies[op] = reply;
}

/// Maps the tags of a piece of a write out.
fn map_piece(pool: &mut PagePool, io: &Io, ty: PiType, bio: &Bio)
    requires whole { IsWhole pool.old io.now }
    requires within { bio.now.k + bio.now.count ≤ io.now.count }
    requires ends { bio.now.lba + bio.now.count < 2 ^ 64 }
    ensures pages { length pool.new ≡ length pool.old }
    ensures mapped { WriteMapped io.now.dir io.now.pi ty bio.now.k bio.now.count bio.now.lba pool.old pool.new }
{
    if let (Dir::Write, Some(pi)) = (io.dir, &io.pi) {
        map_out(pool, pi, ty, bio.k, bio.count, bio.lba);
    }
}

/// Makes the tuples of a write whose tuples are the block layer's.
fn make_tuples(pool: &mut PagePool, io: &Io, kind: GuardKind, ty: PiType)
    requires whole { IsWhole pool.old io.now }
    requires some { 0 < io.now.count }
    ensures pages { length pool.new ≡ length pool.old }
    ensures made { WriteMade io.now.dir io.now.pi kind ty io.now.body pool.old pool.new }
{
    if let (Dir::Write, Some(pi)) = (io.dir, &io.pi) {
        if pi.owner == Owner::Block {
            pi.generate(pool, &io.body, kind, ty);
        }
    }
}

/// Makes the tuples of a `seal`. Its tags are counted on for every type.
fn seal(pool: &mut PagePool, body: &SgList, kind: GuardKind, room: Room)
    requires { HoldsSeal pool.old body.now room }
    ensures pages { length pool.new ≡ length pool.old }
    ensures sealed { Sealed room kind body.now pool.old pool.new }
{
    if let Room::Tuples(pi) = room {
        pi.generate(pool, body, kind, PiType::One);
    }
}

fn overwrite<R: Rig>(rig: &mut R, dev: u32, lba: u64, change: &Change) -> Reply
    requires { HasChangedBlocks (is_some (R.state rig.old).image) (R.state rig.old).standing dev lba change.now }
    ensures reply { (result ≡ Silent) ⊎ (result ≡ Medium) }
    ensures stays { RigStays (R.state rig.old) (R.state rig.new) }
    ensures room { (R.state rig.new).room ≡ (R.state rig.old).room }
    ensures log { (R.state rig.new).log ≡ (R.state rig.old).log }
    ensures left { (us : List Stored) → (R.state rig.old).units ≡ Some us → result ≡ Silent → (R.state rig.new).units ≡ Some (with_block us dev lba (changed us change.now (block_at us dev lba))) }
    ensures failed { (us : List Stored) → (R.state rig.old).units ≡ Some us → is_medium result ≡ true
        → (block : List ℕ) × ((length block ≡ frame_size (unit_at us dev)) × ((R.state rig.new).units ≡ Some (with_block us dev lba block))) }
    ensures silent { Calm (R.state rig.old).faults (R.state rig.new).faults → is_medium result ≡ false }
{
    match rig.overwrite(dev, lba, change) {
        Ok(()) => Reply::Silent,
        Err(_) => Reply::Medium,
    }
}

/// Does an op that is no request, and says what it replies.
fn do_op<R: Rig>(pool: &mut PagePool, op: &Op, kind: GuardKind, room: Room, rig: &mut R) -> Reply
    requires can { CanDo pool.old room op.now }
    requires reach { CanReach (is_some (R.state rig.old).image) (R.state rig.old).standing op.now }
    ensures pages { length pool.new ≡ length pool.old }
    ensures done { OpDone op.now kind room pool.old pool.new result }
    ensures stays { RigStays (R.state rig.old) (R.state rig.new) }
    ensures room { (R.state rig.new).room ≡ (R.state rig.old).room }
    ensures log { (R.state rig.new).log ≡ (R.state rig.old).log }
    ensures left { (us : List Stored) → (R.state rig.old).units ≡ Some us → IsKnown op.now result → (R.state rig.new).units ≡ Some (units_left op.now us) }
    ensures failed { (us : List Stored) → (R.state rig.old).units ≡ Some us → is_medium result ≡ true → LeavesOwn op.now us (R.state rig.new).units }
    ensures silent { Calm (R.state rig.old).faults (R.state rig.new).faults → is_medium result ≡ false }
{
    match op {
        Op::Fill { seg, byte } => {
            fill(pool, *seg, *byte);
            Reply::Silent
        }
        Op::Put { page, off, bytes } => {
            put(pool, *page, *off, bytes.as_slice());
            Reply::Silent
        }
        Op::Show { seg } => shown(pool.part(*seg), room),
        Op::Seal { body, .. } => {
            seal(pool, body, kind, room);
            Reply::Silent
        }
        Op::Overwrite { dev, lba, change } => overwrite(rig, *dev, *lba, change),
        Op::Write { .. } | Op::Fetch { .. } | Op::WritePi { .. } | Op::FetchPi { .. } | Op::Wait =>
            Reply::Silent,
    }
}
