//! The calls of the rig.

ghost use Rattle.std.specs.Prelude.{◌≡◌, ◌≤◌, ◌<◌, [], None, IsErrOf, length, refl, true};
ghost use Rattle.dix_base.specs.Told.{Rose};
ghost use Rattle.rig_api.specs.Log.{IsMedium, has_key};
ghost use Rattle.rig_api.specs.declared.rig.RigFault.{RigFault};
ghost use Rattle.image_rig.specs.Entries.{few_of, keyed_of};
ghost use Rattle.image_rig.specs.Logs.{logged, room_in};
ghost use Rattle.test_rig.specs.Untold.{untold_stands};

use crate::answers::{Answer, kept_outcome, send};
use crate::scripted::ScriptedRig;
use cdb_codec::Cdb;
use dix_base::Failed;
use fault_schedule::{FaultList, Label};
use image_rig::Log;
use rig_api::{Change, Exchanged, Outcome, Record, Rig, RigFault, UnitSpec};
use std::alloc::{AllocError, Global};

/// The greatest block size of a device.
const GREATEST: u32 = 4096;

/// How a device answers behind its last answer.
const SILENT: Outcome = Outcome {
    done: 0,
    sense: None,
};

impl<R: Rig> ScriptedRig<R> {
    /// A rig that answers so, with nothing in its log.
    pub fn new(alloc: Global, inner: R, answers: Vec<Answer>) -> ScriptedRig<R>
        ensures log { (⟦<ScriptedRig<R> as Rig>⟧.state result).log ≡ [] }
        ensures untold { (⟦<ScriptedRig<R> as Rig>⟧.state result).image ≡ None }
        ensures standing { (⟦<ScriptedRig<R> as Rig>⟧.state result).standing ≡ (R.state inner).standing }
    {
        ScriptedRig {
            inner,
            log: Log::new(alloc),
            answers,
            given: 0,
            armed: FaultList::from_vec(Vec::new(alloc)),
            faults: 0,
        }
    }

    /// The rig inside.
    pub fn inner(&self) -> &R
        ensures { (R.state result.now).standing ≡ (⟦<ScriptedRig<R> as Rig>⟧.state self.now).standing }
    {
        &self.inner
    }
}

impl<R: Rig> Rig for ScriptedRig<R> {
    ghost state = { λ s. record {
      image = None;
      units = None;
      standing = (R.state s.inner).standing;
      log = logged s.log;
      room = room_in s.log;
      armed = s.armed;
      faults = s.faults;
    } };

    ghost laid = { λ s. refl };

    ghost ready = { λ s. untold_stands (R.state s.inner).standing (R.state s.inner).image (R.ready s.inner) };

    ghost octets = { λ s. tt };

    ghost few = { λ s. few_of s.log.labels.items s.log.moved.items s.log.kept.items s.log.free s.log.bound };

    ghost keyed = { λ s. keyed_of s.log.labels.items s.log.moved.items s.log.kept.items s.log.keyed };

    fn open(&mut self, alloc: Global, name: &str) -> Result<(), RigFault> {
        let opened = self.inner.open(alloc, name);
        self.faults = count_after_call(self.faults, failed(&opened));
        opened
    }

    fn format(&mut self, alloc: Global, name: &str, spec: &[UnitSpec]) -> Result<(), RigFault> {
        let formatted = self.inner.format(alloc, name, spec);
        self.faults = count_after_call(self.faults, failed(&formatted));
        formatted
    }

    fn migrate(&mut self, alloc: Global, name: &str) -> Result<u32, RigFault> {
        let migrated = self.inner.migrate(alloc, name);
        self.faults = count_after_call(self.faults, failed(&migrated));
        migrated
    }

    fn devices(&self) -> u32 {
        self.inner.devices()
    }

    fn first(&self, dev: u32) -> u64 {
        self.inner.first(dev)
    }

    fn size(&self, dev: u32) -> u32 {
        self.inner.size(dev)
    }

    fn records(&self) -> u32 {
        self.log.len()
    }

    fn logged(&self, i: u32) -> &Record {
        self.log.record(i)
    }

    fn moved(&self, i: u32) -> &[u8] {
        self.log.moved(i)
    }

    fn labels(&self, i: u32) -> &[Label] {
        self.log.labels(i)
    }

    fn reserve(&mut self, _alloc: Global, exchanges: u32, blocks: u32) -> Result<(), AllocError> {
        self.log.reserve(GREATEST, exchanges, blocks)
    }

    fn arm(&mut self, lines: FaultList) {
        self.armed = lines;
    }

    fn overwrite(&mut self, _dev: u32, _lba: u64, _change: &Change) -> Result<(), Failed> {
        Ok(())
    }

    fn exchange(
        &mut self,
        dev: u32,
        cdb: &[u8],
        labels: &[Label],
        out: &[u8],
        into: &mut [u8],
    ) -> Outcome {
        let outcome = answer_with(&self.answers, self.given, into);
        self.given = self.given.saturating_add(1);
        self.faults = count_after(self.faults, outcome);
        let size = self.inner.size(dev);
        self.log.note(&Exchanged {
            dev,
            size,
            cdb,
            command: Cdb::decode(cdb),
            labels,
            outcome,
            out,
            into,
        });
        outcome
    }
}

/// Answers by this answer of a list, and sends its bytes.
fn answer_with(answers: &[Answer], at: usize, into: &mut [u8]) -> Outcome
    ensures key { has_key result.sense ≡ true }
    ensures room { length into.new ≡ length into.old }
{
    match answers.get(at) {
        Some(answer) => {
            send(&answer.bytes, into);
            kept_outcome(answer.outcome)
        }
        None => SILENT,
    }
}

/// Whether the rig inside failed.
fn failed<T>(call: &Result<T, RigFault>) -> bool
    ensures { IsErrOf call.now RigFault.Failed → result ≡ true }
{
    matches!(call, Err(RigFault::Failed))
}

/// The count of faults behind a call that failed or didn't.
fn count_after_call(count: u64, failed: bool) -> u64
    ensures least { count ≤ result }
    ensures rose { failed ≡ true → Rose count result }
{
    if failed {
        count.saturating_add(1)
    } else {
        count
    }
}

/// The count of faults behind a command that ended so.
fn count_after(count: u64, outcome: Outcome) -> u64
    ensures least { count ≤ result }
    ensures rose { IsMedium outcome → Rose count result }
{
    match outcome.sense {
        Some(sense) => count_after_call(count, sense.key == 3),
        None => count,
    }
}
