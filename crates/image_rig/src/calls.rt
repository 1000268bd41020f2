//! The calls of the rig.

ghost use Rattle.std.specs.Prelude.{◌≡◌, [], length, refl};
ghost use Rattle.image_rig.specs.Entries.{few_of, keyed_of};
ghost use Rattle.image_rig.specs.Logs.{logged, room_in};
ghost use Rattle.image_rig.specs.Heads.{called, head_in};
ghost use Rattle.image_rig.specs.Told.{laid_of, ready_of, standing_of, units_of_image};

use crate::formatting::append_formatted;
use crate::migrating::migrate_head;
use crate::overwriting::change_block;
use crate::place::{greatest_size, logical};
use crate::{ImageHead, ImageRig, Log, look};
use arrayvec::ArrayVec;
use cdb_codec::Cdb;
use dix_base::{Failed, Store, StoreFault};
use fault_schedule::{FaultList, Label, Tamper};
use rig_api::{Change, Exchanged, Outcome, Record, Rig, RigFault, UnitSpec};
use std::alloc::{AllocError, Global};
use target_model::serve_command;

impl<S: Store> ImageRig<S> {
    /// A rig over this store, with no image opened, no fault armed and nothing in its log.
    pub fn new(alloc: Global, store: S) -> ImageRig<S>
        ensures image { (⟦<ImageRig<S> as Rig>⟧.state result).image ≡ (S.state store).bytes }
        ensures faults { (⟦<ImageRig<S> as Rig>⟧.state result).faults ≡ (S.state store).faults }
        ensures log { (⟦<ImageRig<S> as Rig>⟧.state result).log ≡ [] }
        ensures armed { (⟦<ImageRig<S> as Rig>⟧.state result).armed ≡ [] }
        ensures standing { (⟦<ImageRig<S> as Rig>⟧.state result).standing ≡ called (S.state store) }
    {
        ImageRig {
            store,
            head: ImageHead::none(),
            units: ArrayVec::new(),
            tamper: Tamper::new(FaultList::from_vec(Vec::new(alloc))),
            log: Log::new(alloc),
        }
    }

    /// The store, which holds the image.
    pub fn store(&self) -> &S
        ensures image { (S.state result.now).bytes ≡ (⟦<ImageRig<S> as Rig>⟧.state self.now).image }
        ensures faults { (S.state result.now).faults ≡ (⟦<ImageRig<S> as Rig>⟧.state self.now).faults }
        ensures name { (S.state result.now).handed ≡ (⟦<ImageRig<S> as Rig>⟧.state self.now).standing.name }
        ensures openings { (S.state result.now).openings ≡ (⟦<ImageRig<S> as Rig>⟧.state self.now).standing.openings }
    {
        &self.store
    }
}

impl<S: Store> Rig for ImageRig<S> {
    ghost state = { λ s. record {
      image = (S.state s.store).bytes;
      units = units_of_image (length s.units.items) (head_in s.head) (S.state s.store).bytes;
      standing = standing_of (length s.units.items) (head_in s.head) (S.state s.store).handed (S.state s.store).openings;
      log = logged s.log;
      room = room_in s.log;
      armed = s.tamper;
      faults = (S.state s.store).faults;
    } };

    ghost laid = { λ s. laid_of (length s.units.items) (head_in s.head) (S.state s.store).handed (S.state s.store).openings (S.state s.store).bytes };

    ghost ready = { λ s. ready_of (length s.units.items) (head_in s.head) (S.state s.store).handed (S.state s.store).openings (S.state s.store).bytes s.units.items s.right s.devices s.told refl };

    ghost octets = { λ s. S.octets s.store };

    ghost few = { λ s. few_of s.log.labels.items s.log.moved.items s.log.kept.items s.log.free s.log.bound };

    ghost keyed = { λ s. keyed_of s.log.labels.items s.log.moved.items s.log.kept.items s.log.keyed };

    fn open(&mut self, alloc: Global, name: &str) -> Result<(), RigFault> {
        self.units.clear();
        look(alloc, &mut self.store, &mut self.head, name)?;
        self.units = self.head.units();
        Ok(())
    }

    fn format(&mut self, alloc: Global, name: &str, spec: &[UnitSpec]) -> Result<(), RigFault> {
        self.units.clear();
        let Ok(name) = String::from_str(alloc, name) else {
            return Err(RigFault::Memory);
        };
        let Ok(()) = self.store.reset(name) else {
            return Err(RigFault::Failed);
        };
        match append_formatted(alloc, &mut self.store, spec) {
            Ok(()) => Ok(()),
            Err(StoreFault::Failed) => Err(RigFault::Failed),
            Err(StoreFault::Memory) => Err(RigFault::Memory),
        }
    }

    fn migrate(&mut self, alloc: Global, name: &str) -> Result<u32, RigFault> {
        self.units.clear();
        let before = self.head;
        look(alloc, &mut self.store, &mut self.head, name)?;
        match migrate_head(&mut self.store, &self.head) {
            Ok(count) => Ok(count),
            Err(Failed) => {
                self.head = before;
                Err(RigFault::Failed)
            }
        }
    }

    fn devices(&self) -> u32 {
        self.units.len() as u32
    }

    fn first(&self, dev: u32) -> u64 {
        self.units[dev as usize].first
    }

    fn size(&self, dev: u32) -> u32 {
        self.units[dev as usize].size
    }

    fn records(&self) -> u32 {
        self.log.len()
    }

    fn logged(&self, i: u32) -> &Record {
        self.log.record(i)
    }

    fn moved(&self, i: u32) -> &[u8] {
        self.log.moved(i)
    }

    fn labels(&self, i: u32) -> &[Label] {
        self.log.labels(i)
    }

    fn reserve(&mut self, _alloc: Global, exchanges: u32, blocks: u32) -> Result<(), AllocError> {
        self.log
            .reserve(greatest_size(&self.units), exchanges, blocks)
    }

    fn arm(&mut self, lines: FaultList) {
        self.tamper = Tamper::new(lines);
    }

    fn overwrite(&mut self, dev: u32, lba: u64, change: &Change) -> Result<(), Failed> {
        change_block(&mut self.store, &self.units, dev as usize, lba, change)
    }

    fn exchange(
        &mut self,
        dev: u32,
        cdb: &[u8],
        labels: &[Label],
        out: &[u8],
        into: &mut [u8],
    ) -> Outcome {
        let unit = logical(&self.units, dev as usize);
        let command = Cdb::decode(cdb);
        let tamper = &self.tamper;
        let outcome = serve_command(&mut self.store, &unit, command, labels, out, into, tamper);
        self.log.note(&Exchanged {
            dev,
            size: unit.size,
            cdb,
            command,
            labels,
            outcome,
            out,
            into,
        });
        outcome
    }
}
