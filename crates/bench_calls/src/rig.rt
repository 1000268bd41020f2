//! A rig in memory that takes every block and keeps its records.

ghost use Rattle.std.specs.Prelude.{◌≡◌, ◌≤◌, ◌^◌, ◌-◌, None, true, refl};
ghost use Rattle.image_rig.specs.Entries.{few_of, keyed_of};
ghost use Rattle.image_rig.specs.Logs.{logged, room_in};
ghost use Rattle.test_rig.specs.Answering.{is_count, ready_of, size_of, standing_of};

use cdb_codec::Cdb;
use dix_base::Failed;
use fault_schedule::{FaultList, Label, Tamper};
use image_rig::Log;
use rig_api::{Change, Exchanged, Outcome, Record, Rig, RigFault, UnitSpec};
use std::alloc::{AllocError, Global};

/// Eight devices: 0 to 3 have blocks of 512 bytes and the types 0 to 3, 4 to 7 the same with blocks of 4,096 bytes.
/// None tells its blocks. Each command is done whole; what is read is whatever stood in the buffer.
#[derive(Drop)]
pub(crate) struct PlainRig {
    devices: u32,
    tamper: Tamper,
    log: Log,
    ghost open: { is_count devices ≡ true },
}

impl PlainRig {
    /// A rig with nothing on record.
    pub(crate) fn new(alloc: Global) -> PlainRig
        ensures { (⟦<PlainRig as Rig>⟧.state result).standing.devices ≡ 8 }
    {
        PlainRig {
            devices: 8,
            tamper: Tamper::new(FaultList::from_vec(Vec::new(alloc))),
            log: Log::new(alloc),
        }
    }
}

fn size_of(dev: u32) -> u32
    ensures value { result ≡ size_of dev }
    ensures bound { result ≤ 4096 }
{
    if dev < 4 { 512 } else { 4096 }
}

impl Rig for PlainRig {
    ghost state = { λ s. record {
      image = None;
      units = None;
      standing = standing_of s.devices;
      log = logged s.log;
      room = room_in s.log;
      armed = s.tamper;
      faults = 2 ^ 64 - 1;
    } };

    ghost laid = { λ s. refl };

    ghost ready = { λ s. ready_of s.devices s.open };

    ghost octets = { λ s. tt };

    ghost few = { λ s. few_of s.log.labels.items s.log.moved.items s.log.kept.items s.log.free s.log.bound };

    ghost keyed = { λ s. keyed_of s.log.labels.items s.log.moved.items s.log.kept.items s.log.keyed };

    fn open(&mut self, _alloc: Global, _name: &str) -> Result<(), RigFault> {
        self.devices = 0;
        Err(RigFault::Memory)
    }

    fn format(&mut self, _alloc: Global, _name: &str, _spec: &[UnitSpec]) -> Result<(), RigFault> {
        self.devices = 0;
        Err(RigFault::Memory)
    }

    fn migrate(&mut self, _alloc: Global, _name: &str) -> Result<u32, RigFault> {
        self.devices = 0;
        Err(RigFault::Memory)
    }

    fn devices(&self) -> u32 {
        self.devices
    }

    fn first(&self, _dev: u32) -> u64 {
        0
    }

    fn size(&self, dev: u32) -> u32 {
        size_of(dev)
    }

    fn records(&self) -> u32 {
        self.log.len()
    }

    fn logged(&self, i: u32) -> &Record {
        self.log.record(i)
    }

    fn moved(&self, i: u32) -> &[u8] {
        self.log.moved(i)
    }

    fn labels(&self, i: u32) -> &[Label] {
        self.log.labels(i)
    }

    fn reserve(&mut self, _alloc: Global, exchanges: u32, blocks: u32) -> Result<(), AllocError> {
        self.log.reserve(4096, exchanges, blocks)?;
        Ok(())
    }

    fn arm(&mut self, lines: FaultList) {
        self.tamper = Tamper::new(lines);
    }

    fn overwrite(&mut self, _dev: u32, _lba: u64, _change: &Change) -> Result<(), Failed> {
        Ok(())
    }

    fn exchange(
        &mut self,
        dev: u32,
        cdb: &[u8],
        labels: &[Label],
        out: &[u8],
        into: &mut [u8],
    ) -> Outcome {
        let outcome = Outcome {
            done: u32::try_from(labels.len()).unwrap_or(u32::MAX),
            sense: None,
        };
        self.log.note(&Exchanged {
            dev,
            size: size_of(dev),
            cdb,
            command: Cdb::decode(cdb),
            labels,
            outcome,
            out,
            into,
        });
        outcome
    }
}
