//! The trait, and what its calls speak of.

ghost use Rattle.std.specs.Prelude.{◌≡◌, ◌⊎◌, ◌+◌, ◌^◌, ◌<◌, ◌≤◌, ℕ, List, length, is_some, true, false, OnOk, OnErr, IfOk, IsOk, IsErrOf, Some};
ghost use Rattle.dix_base.specs.Told.{AreOctets, Becomes, Rose};
ghost use Rattle.rig_api.specs.Head.{fault_name, units_of, version_in};
ghost use Rattle.rig_api.specs.Log.{HasRoom, capacity_len, entry_at, have_keys};
ghost use Rattle.rig_api.specs.State.{Exchanged, IsJudgement, KeepsRecords, RigState, Stays};
ghost use Rattle.rig_api.specs.Telling.{IsMigrated, IsStanding, JudgesNone, KeepsBlocks, KeepsUnits, LeavesImage, LeavesShort, Opened, OpenedBy, Stayed, block_at, can_change, changed, frame_size, greatest_size, migrated_count, source_of, spec_at, unit_at, units_told, with_block};
ghost use Rattle.rig_api.specs.Headers.{is_layout};
ghost use Rattle.rig_api.specs.Image.{formatted};
ghost use Rattle.rig_api.specs.Requests.{blocks_of};
ghost use Rattle.rig_api.specs.Target.{Stored};

use crate::{Change, UnitSpec};
use dix_base::Failed;
use fault_schedule::{FaultList, Label, ShortBytes};
use sense_codes::Sense;
use std::alloc::{AllocError, Global};

/// How far a target came with a command.
#[derive(Clone, Copy, Debug, PartialEq, Eq)]
pub struct Outcome {
    /// The number of blocks that were stored or sent, from the command's first block on.
    pub done: u32,
    /// The sense, where the target says why it went no further.
    pub sense: Option<Sense>,
}

/// One exchange: which device was handed which command block, and what it answered.
#[derive(Drop)]
pub struct Record {
    /// The device, from 0.
    pub dev: u32,
    /// The command descriptor block.
    pub cdb: ShortBytes,
    /// The outcome.
    pub outcome: Outcome,
}

/// Why an image isn't opened.
#[derive(Clone, Copy, Debug, PartialEq, Eq)]
pub enum RigFault {
    /// It doesn't begin with the text of an image.
    BadMagic,
    /// Its header isn't that of any units.
    BadHeader,
    /// Its length isn't that of its header and blocks.
    BadLength,
    /// The store failed.
    Failed,
    /// Want of memory.
    Memory,
}

impl RigFault {
    /// The name of the fault, as reports print it.
    pub fn name(self) -> &'static str
        ensures { result.now ≡ fault_name self }
    {
        match self {
            RigFault::BadMagic => "BadMagic",
            RigFault::BadHeader => "BadHeader",
            RigFault::BadLength => "BadLength",
            RigFault::Failed => "Failed",
            RigFault::Memory => "Memory",
        }
    }
}

/// Devices behind command blocks. Each is a unit of an image.
///
/// A rig that tells its blocks goes on telling them, and one that doesn't never will.
pub trait Rig {
    /// All that a rig shows of itself.
    ghost state: { Self → RigState };

    /// Opens the image of this name. `BadMagic`, `BadHeader` and `BadLength` come exactly where
    /// its head says so, `Failed` only where the count of faults rose, `Memory` for want of it.
    /// After a refusal the rig has no device.
    fn open(&mut self, alloc: Global, name: &str) -> Result<(), RigFault>
        ensures judged { IsJudgement result (state self.old) (state self.new) }
        ensures devices { OnOk result ((state self.new).standing.devices ≡ length (units_of (state self.new).standing.head)) }
        ensures none { OnErr result ((state self.new).standing.devices ≡ 0) }
        ensures opening { Stayed (state self.old).standing (state self.new).standing ⊎ Opened name.now (state self.old).standing (state self.new).standing }
        ensures opened { OpenedBy result name.now (state self.old).standing (state self.new).standing }
        ensures image { (state self.new).image ≡ (state self.old).image }
        ensures keeps { KeepsRecords (state self.old) (state self.new) };

    /// Makes the image of this name the formatted one of these units: a header of version 1 where
    /// every unit has blocks of 512 bytes and the first address 0, else of version 2, and blocks
    /// of zeros with proper tuples. The units are 1 to 8; each has 1 to 65,536 blocks of 512
    /// bytes or 1 to 8,192 of 4,096, and its first address and blocks are together at most 2^63.
    ///
    /// `Failed` comes only where the count of faults rose; then the image may be anything. After want of
    /// memory it is as it was, or a front of the formatted one that isn't opened. The rig has no device then.
    fn format(&mut self, alloc: Global, name: &str, spec: &[UnitSpec]) -> Result<(), RigFault>
        requires layout { is_layout spec.now ≡ true }
        ensures formatted { OnOk result (Becomes (λ was is. is ≡ formatted spec.now) (state self.old).image (state self.new).image) }
        ensures answers { JudgesNone result }
        ensures failed { IsErrOf result RigFault.Failed → Rose (state self.old).faults (state self.new).faults }
        ensures short { IsErrOf result RigFault.Memory → LeavesShort (formatted spec.now) (state self.old).image (state self.new).image }
        ensures tells { is_some (state self.new).image ≡ is_some (state self.old).image }
        ensures closed { ((state self.new).standing.devices ≡ 0) × ((state self.new).standing.head ≡ (state self.old).standing.head) }
        ensures opening { Stayed (state self.old).standing (state self.new).standing ⊎ Opened name.now (state self.old).standing (state self.new).standing }
        ensures opened { OpenedBy result name.now (state self.old).standing (state self.new).standing }
        ensures keeps { KeepsRecords (state self.old) (state self.new) };

    /// Replaces a head of version 1 by the head of version 2 that tells the same units, and
    /// answers their number; 0 exactly where the head is of version 2. The refusals are those of
    /// `open`. The head that stands afterwards is the one that was read, before the write. Every
    /// stored block stays as it was, also after `Failed`, and the rig has no device.
    fn migrate(&mut self, alloc: Global, name: &str) -> Result<u32, RigFault>
        ensures judged { IsJudgement result (state self.old) (state self.new) }
        ensures number { IfOk result (λ n. n ≡ migrated_count (version_in (state self.new).standing.head) (units_of (state self.new).standing.head)) }
        ensures migrated { OnOk result (IsMigrated (state self.new).standing.head (state self.old).image (state self.new).image) }
        ensures stored { OnOk result (KeepsUnits (state self.old).image (state self.new).image) }
        ensures blocks { KeepsBlocks (state self.old).image (state self.new).image }
        ensures image { LeavesImage result (state self.old).image (state self.new).image }
        ensures none { (state self.new).standing.devices ≡ 0 }
        ensures opening { Stayed (state self.old).standing (state self.new).standing ⊎ Opened name.now (state self.old).standing (state self.new).standing }
        ensures opened { OpenedBy result name.now (state self.old).standing (state self.new).standing }
        ensures keeps { KeepsRecords (state self.old) (state self.new) };

    /// The number of devices: 0 before an image is opened.
    fn devices(&self) -> u32
        ensures { result ≡ (state self.now).standing.devices };

    /// The LBA of the first block of a device.
    fn first(&self, dev: u32) -> u64
        requires { dev < (state self.now).standing.devices }
        ensures { result ≡ (spec_at (state self.now).standing dev).first };

    /// The bytes of data in a block of a device.
    fn size(&self, dev: u32) -> u32
        requires { dev < (state self.now).standing.devices }
        ensures { result ≡ (spec_at (state self.now).standing dev).size };

    /// The number of records.
    fn records(&self) -> u32
        ensures { result ≡ length (state self.now).log };

    /// Record `i`, from 0.
    fn logged(&self, i: u32) -> &Record
        requires { i < length (state self.now).log }
        ensures { result.now ≡ (entry_at (state self.now).log i).what };

    /// The moved bytes of record `i`: the frames of the blocks that were done, or what READ
    /// CAPACITY(16) left in its buffer.
    fn moved(&self, i: u32) -> &[u8]
        requires { i < length (state self.now).log }
        ensures { result.now ≡ (entry_at (state self.now).log i).moved };

    /// The labels of record `i`: those of the blocks that were done and of the one where it ended.
    fn labels(&self, i: u32) -> &[Label]
        requires { i < length (state self.now).log }
        ensures { result.now ≡ (entry_at (state self.now).log i).labels };

    /// Takes the memory for so many further exchanges of together so many blocks.
    fn reserve(&mut self, alloc: Global, exchanges: u32, blocks: u32) -> Result<(), AllocError>
        ensures room { OnOk result (HasRoom (greatest_size (state self.old).standing) exchanges blocks (state self.new).room) }
        ensures keeps { state self.new ≡ record (state self.old) { room = (state self.new).room } };

    /// Puts these faults in place of those that were armed.
    fn arm(&mut self, lines: FaultList)
        ensures { state self.new ≡ record (state self.old) { armed = lines } };

    /// Changes the stored block at an LBA of a device, without a command and without a record. A
    /// rig that tells its blocks has the addresses, and blocks of one length there; one that
    /// doesn't tell, and has them not, changes nothing and answers Ok.
    ///
    /// `Failed` comes only where the count of faults rose; then the block may hold anything.
    fn overwrite(&mut self, dev: u32, lba: u64, change: &Change) -> Result<(), Failed>
        requires device { dev < (state self.old).standing.devices }
        requires source { source_of change.now dev < (state self.old).standing.devices }
        requires place { is_some (state self.old).image ≡ true → can_change (state self.old).standing dev lba change.now ≡ true }
        ensures changed { OnOk result ((us : List Stored) → (state self.old).units ≡ Some us
            → (state self.new).units ≡ Some (with_block us dev lba (changed us change.now (block_at us dev lba)))) }
        ensures left { OnErr result ((us : List Stored) → (state self.old).units ≡ Some us
            → (block : List ℕ) × (length block ≡ frame_size (unit_at us dev)) × ((state self.new).units ≡ Some (with_block us dev lba block))) }
        ensures cause { OnErr result (Rose (state self.old).faults (state self.new).faults) }
        ensures nowhere { can_change (state self.old).standing dev lba change.now ≡ false → IsOk result × ((state self.new).faults ≡ (state self.old).faults) }
        ensures stays { Stays (state self.old) (state self.new) }
        ensures keeps { KeepsRecords (state self.old) (state self.new) };

    /// Hands a command block to a device, with the frames to write or the room for what is read,
    /// and appends the record. Label `j` belongs to block `j` of the command.
    ///
    /// A rig that tells its blocks answers as a target does under the armed faults, up to a store
    /// call that fails.
    fn exchange(
        &mut self,
        dev: u32,
        cdb: &[u8],
        labels: &[Label],
        out: &[u8],
        into: &mut [u8],
    ) -> Outcome
        requires device { dev < (state self.old).standing.devices }
        requires short { length cdb.now ≤ 32 }
        requires room { HasRoom (greatest_size (state self.old).standing) 1 (blocks_of cdb.now) (state self.old).room }
        requires capacity { capacity_len cdb.now (length into.old) ≤ (state self.old).room.moved }
        ensures exchanged { Exchanged (state self.old) (state self.new) dev cdb.now labels.now out.now into.old into.new result };

    /// The stored blocks are those that are found in the image, where it is told.
    ghost laid: { (s : Self) → (state s).units ≡ units_told (state s).standing (state s).image };

    /// Devices stand on a right head, which is the image's where that is told.
    ghost ready: { (s : Self) → IsStanding (state s).standing (state s).image };

    /// Where the image is told, each of its bytes is below 256, and so is each of the stored blocks, which are found in it.
    ghost octets: { (s : Self) → AreOctets (state s).image };

    /// The records and their spare room together never pass 4,294,967,295.
    ghost few: { (s : Self) → length (state s).log + (state s).room.records < 2 ^ 32 };

    /// In every record the key of a sense is below 16.
    ghost keyed: { (s : Self) → have_keys (state s).log ≡ true };
}
