//! The rig.

ghost use Rattle.std.specs.Prelude.{◌≡◌, ◌+◌, ◌*◌, ◌-◌, ◌≤◌, ◌<◌, ◌^◌, ◌++◌, IfOk, None, Some, length, min, true, refl};
ghost use Rattle.std.specs.Vec.{vec_capacity};
ghost use Rattle.rig_api.specs.Log.{HasRoom, has_key};
ghost use Rattle.rig_api.specs.Telling.{greatest_size};
ghost use Rattle.test_rig.specs.Answering.{IsFilled, entries, few_of, is_count, is_keyed, keyed_of, ready_of, room_of, size_of, spare, standing_of};

use cdb_codec::Cdb;
use dix_base::Failed;
use fault_schedule::{FaultList, Label, Tamper};
use rig_api::{Change, Exchanged, Outcome, Record, Rig, RigFault, UnitSpec};
use std::alloc::{AllocError, Global};

/// The most blocks of its command.
const MOST: usize = 1024;

/// Eight devices: 0 to 3 have blocks of 512 bytes and the types 0 to 3, 4 to 7 the same with blocks of 4,096 bytes.
/// None tells its blocks. A command gets the outcome, and a read the frames, that the rig was made with.
///
/// There is room for one record, of a command of at most 1,024 blocks; `forget` drops it.
#[derive(Drop)]
pub struct AnswerRig {
    devices: u32,
    outcome: Outcome,
    // What a read gets.
    frames: Vec<u8>,
    tamper: Tamper,
    what: Option<Record>,
    labels: Vec<Label>,
    moved: Vec<u8>,
    ghost open: { is_count devices ≡ true },
    ghost keyed: { has_key outcome.sense ≡ true },
    ghost logged: { is_keyed what ≡ true },
    ghost room_labels: { 1025 ≤ vec_capacity labels },
    ghost room_moved: { 4202528 ≤ vec_capacity moved },
}

impl AnswerRig {
    /// A rig that answers a command so. A read gets these frames, as far as they reach.
    pub fn new(alloc: Global, outcome: Outcome, frames: Vec<u8>) -> Result<AnswerRig, AllocError>
        requires { has_key outcome.sense ≡ true }
        ensures room { IfOk result (λ r. HasRoom (greatest_size (⟦<AnswerRig as Rig>⟧.state r).standing) 1 1024 (⟦<AnswerRig as Rig>⟧.state r).room) }
        ensures devices { IfOk result (λ r. (⟦<AnswerRig as Rig>⟧.state r).standing.devices ≡ 8) }
    {
        Ok(AnswerRig {
            devices: 8,
            outcome,
            frames,
            tamper: Tamper::new(FaultList::from_vec(Vec::new(alloc))),
            what: None,
            labels: Vec::with_capacity(alloc, MOST + 1)?,
            moved: Vec::with_capacity(alloc, MOST * 4104 + 32)?,
        })
    }

    /// Drops the record, so that there is room for another, of a command of so many blocks.
    pub fn forget(&mut self, _blocks: u32)
        requires { _blocks ≤ 1024 }
        ensures room { HasRoom (greatest_size (⟦<AnswerRig as Rig>⟧.state self.new).standing) 1 _blocks (⟦<AnswerRig as Rig>⟧.state self.new).room }
        ensures standing { (⟦<AnswerRig as Rig>⟧.state self.new).standing ≡ (⟦<AnswerRig as Rig>⟧.state self.old).standing }
    {
        self.what = None;
        self.labels.clear();
        self.moved.clear();
    }

    /// From now on a read gets the frames that were moved last.
    pub fn keep_moved(&mut self) -> Result<(), AllocError>
        ensures standing { (⟦<AnswerRig as Rig>⟧.state self.new).standing ≡ (⟦<AnswerRig as Rig>⟧.state self.old).standing }
        ensures room { (⟦<AnswerRig as Rig>⟧.state self.new).room ≡ (⟦<AnswerRig as Rig>⟧.state self.old).room }
    {
        self.frames.clear();
        self.frames.extend_from_slice(&self.moved)
    }

    fn size_of(&self, dev: u32) -> u32
        ensures value { result ≡ size_of dev }
        ensures bound { result ≤ 4096 }
    {
        if dev < 4 { 512 } else { 4096 }
    }

    fn note(&mut self, dev: u32, cdb: &[u8], labels: &[Label], moved: &[u8])
        requires short { length cdb.now ≤ 32 }
        requires none { self.old.what ≡ None }
        requires labels { length labels.now ≤ spare self.old.labels }
        requires moved { length moved.now ≤ spare self.old.moved }
        ensures what { self.new.what ≡ Some (record { dev = dev; cdb = cdb.now; outcome = self.old.outcome }) }
        ensures labels { IsFilled labels.now self.old.labels self.new.labels }
        ensures moved { IsFilled moved.now self.old.moved self.new.moved }
        ensures devices { self.new.devices ≡ self.old.devices }
        ensures outcome { self.new.outcome ≡ self.old.outcome }
        ensures tamper { self.new.tamper ≡ self.old.tamper }
    {
        self.labels.clear();
        self.moved.clear();
        put_all(&mut self.labels, labels);
        put_all(&mut self.moved, moved);
        self.what = Some(Record::of(dev, cdb, self.outcome));
    }
}

/// The first bytes become those of the other list, as far as both reach.
fn copy_front(into: &mut [u8], from: &[u8])
    ensures { length into.new ≡ length into.old }
{
    let count = into.len().min(from.len());
    into[..count].copy_from_slice(&from[..count]);
}

fn put_all<T: Copy>(held: &mut Vec<T>, more: &[T])
    requires { length more.now ≤ spare held.old }
    ensures items { held.new.items ≡ held.old.items ++ more.now }
    ensures room { spare held.old ≤ spare held.new + length more.now }
{
    match held.extend_from_slice(more) {
        Ok(()) => {}
        Err(_) => unreachable!(),
    }
}

impl Rig for AnswerRig {
    ghost state = { λ s. record {
      image = None;
      units = None;
      standing = standing_of s.devices;
      log = entries s.what s.labels.items s.moved.items;
      room = room_of s.what s.labels s.moved;
      armed = s.tamper;
      faults = 2 ^ 64 - 1;
    } };

    ghost laid = { λ s. refl };

    ghost ready = { λ s. ready_of s.devices s.open };

    ghost octets = { λ s. tt };

    ghost few = { λ s. few_of s.what s.labels.items s.moved.items };

    ghost keyed = { λ s. keyed_of s.what s.labels.items s.moved.items s.logged };

    fn open(&mut self, _alloc: Global, _name: &str) -> Result<(), RigFault> {
        self.devices = 0;
        Err(RigFault::Memory)
    }

    fn format(&mut self, _alloc: Global, _name: &str, _spec: &[UnitSpec]) -> Result<(), RigFault> {
        self.devices = 0;
        Err(RigFault::Memory)
    }

    fn migrate(&mut self, _alloc: Global, _name: &str) -> Result<u32, RigFault> {
        self.devices = 0;
        Err(RigFault::Memory)
    }

    fn devices(&self) -> u32 {
        self.devices
    }

    fn first(&self, _dev: u32) -> u64 {
        0
    }

    fn size(&self, dev: u32) -> u32 {
        self.size_of(dev)
    }

    fn records(&self) -> u32 {
        match &self.what {
            Some(_) => 1,
            None => 0,
        }
    }

    fn logged(&self, _i: u32) -> &Record {
        match &self.what {
            Some(record) => record,
            None => unreachable!(),
        }
    }

    fn moved(&self, _i: u32) -> &[u8] {
        &self.moved
    }

    fn labels(&self, _i: u32) -> &[Label] {
        &self.labels
    }

    fn reserve(&mut self, _alloc: Global, exchanges: u32, blocks: u32) -> Result<(), AllocError> {
        if self.what.is_some() || exchanges > 1 || blocks as usize > MOST {
            return Err(AllocError);
        }
        self.labels.clear();
        self.moved.clear();
        Ok(())
    }

    fn arm(&mut self, lines: FaultList) {
        self.tamper = Tamper::new(lines);
    }

    fn overwrite(&mut self, _dev: u32, _lba: u64, _change: &Change) -> Result<(), Failed> {
        Ok(())
    }

    fn exchange(
        &mut self,
        dev: u32,
        cdb: &[u8],
        labels: &[Label],
        out: &[u8],
        into: &mut [u8],
    ) -> Outcome {
        copy_front(into, &self.frames);
        let exchanged = Exchanged {
            dev,
            size: self.size_of(dev),
            cdb,
            command: Cdb::decode(cdb),
            labels,
            outcome: self.outcome,
            out,
            into,
        };
        self.note(dev, cdb, exchanged.kept_labels(), exchanged.moved());
        self.outcome
    }
}
