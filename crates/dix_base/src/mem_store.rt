//! A store in memory that fails at the calls of a list.

ghost use Rattle.std.specs.Prelude.{◌≡◌, ◌+◌, ◌-◌, ◌/◌, ◌^◌, min, ◌≤◌, ◌++◌, ◌↔◌, [], drop, length, take, Some, refl, IfOk, IsErr, IsErrOf, IsOk, OnOk, OnErr, string_bytes};
ghost use Rattle.dix_base.specs.Forms.{IsNextListed, TookTurn, TookTurnOrMemory, no_turns, stock_state};
ghost use Rattle.dix_base.specs.Stores.{IsCounted, WasExtended, WasOpened, WasRead, WasWritten};
ghost use Rattle.dix_base.specs.Told.{Apart, Begins, Rose, over};

use crate::fault_plan::FaultPlan;
use crate::{CalmStore, Failed, Store, StoreFault};
use std::alloc::Global;
use std::marker::Model;

/// A store that holds one content under every name, and fails at the calls of a list: `reset`,
/// `read_at`, `write_at` and `append` are counted, together and from 1. An opening never fails
/// and isn't counted, and neither is a call that ends for want of memory.
#[derive(Drop)]
pub struct MemStore {
    calm: CalmStore,
    plan: FaultPlan,
}

impl Model for MemStore {
    ghost use Rattle.dix_base.specs.Forms.{Stock};

    ghost Value = { Stock };

    ghost view = { λ s. record { bytes = s.calm.bytes; octets = s.calm.octets; openings = s.calm.openings; handed = s.calm.handed; turns = s.plan } };
}

impl MemStore {
    /// A store of these bytes, whose counted calls with these numbers fail.
    pub fn new(bytes: Vec<u8>, fail: Vec<u64>) -> MemStore
        ensures bytes { result.bytes ≡ bytes.items }
        ensures openings { result.openings ≡ 0 }
        ensures handed { result.handed ≡ [] }
        ensures turns { result.turns ≡ no_turns fail.items }
    {
        MemStore {
            calm: CalmStore::new(bytes),
            plan: FaultPlan::new(fail),
        }
    }

    /// All bytes that it holds.
    pub fn bytes(&self) -> &[u8]
        ensures { result.now ≡ self.now.bytes }
    {
        self.calm.bytes()
    }
}

impl Store for MemStore {
    ghost state = { λ s. stock_state s };

    ghost told = { λ s. refl };

    ghost octets = { λ s. s.octets };

    /// Keeps the name, and answers the length in bytes. It never fails.
    fn open(&mut self, name: String) -> Result<u64, Failed>
        ensures length { IfOk result (λ n. n ≡ length self.new.bytes) }
        ensures same { self.new.bytes ≡ self.old.bytes }
        ensures opened { WasOpened (string_bytes name) (stock_state self.old) (stock_state self.new) }

        ensures opens { IsOk result }
        ensures uncounted { self.new.turns ≡ self.old.turns }
    {
        self.calm.open(name)
    }

    /// Keeps the name, and drops all bytes. A call that is listed fails, and keeps them.
    fn reset(&mut self, name: String) -> Result<(), Failed>
        ensures empty { OnOk result (self.new.bytes ≡ []) }
        ensures length { OnOk result (length self.new.bytes ≡ 0) }
        ensures counted { IsCounted result (stock_state self.old) (stock_state self.new) }
        ensures opened { WasOpened (string_bytes name) (stock_state self.old) (stock_state self.new) }

        ensures turn { TookTurn result (IsNextListed self.old.turns) self.old.turns self.new.turns }
        ensures same { OnErr result (self.new.bytes ≡ self.old.bytes) }
    {
        if self.plan.turn(false).is_err() {
            self.calm.open(name)?;
            return Err(Failed);
        }
        self.calm.reset(name)
    }

    /// Reads the bytes. A call that is listed fails, and leaves the buffer as it was.
    fn read_at(&mut self, at: u64, into: &mut [u8]) -> Result<(), Failed>
        requires { at + length into.old ≤ length self.old.bytes }
        ensures read { OnOk result (into.new ≡ take (length into.old) (drop at self.old.bytes)) }
        ensures counted { IsCounted result (stock_state self.old) (stock_state self.new) }
        ensures stays { WasRead (stock_state self.old) (stock_state self.new) }

        ensures turn { TookTurn result (IsNextListed self.old.turns) self.old.turns self.new.turns }
        ensures buffer { OnErr result (into.new ≡ into.old) }
    {
        self.plan.turn(false)?;
        self.calm.read_at(at, into)
    }

    /// Writes the bytes. A call that is listed fails, and has written the first half of them.
    fn write_at(&mut self, at: u64, piece: &[u8]) -> Result<(), Failed>
        requires { at + length piece.now ≤ length self.old.bytes }
        ensures written { OnOk result (self.new.bytes ≡ over at piece.now self.old.bytes) }
        ensures apart { Apart at (length piece.now) self.old.bytes self.new.bytes }
        ensures counted { IsCounted result (stock_state self.old) (stock_state self.new) }
        ensures stays { WasWritten (stock_state self.old) (stock_state self.new) }

        ensures turn { TookTurn result (IsNextListed self.old.turns) self.old.turns self.new.turns }
        ensures half { OnErr result (self.new.bytes ≡ over at (take (length piece.now / 2) piece.now) self.old.bytes) }
    {
        let n = self.plan.part_of(piece.len());
        self.calm.write_at(at, &piece[..n])?;
        self.plan.turn(false)
    }

    /// Adds the bytes. A call that is listed fails, and has added the first half of them. Where
    /// there is no memory for what it adds, the call isn't counted.
    fn append(&mut self, alloc: Global, piece: &[u8]) -> Result<(), StoreFault>
        ensures written { OnOk result (self.new.bytes ≡ self.old.bytes ++ piece.now) }
        ensures length { OnOk result (length self.new.bytes ≡ length self.old.bytes + length piece.now) }
        ensures begins { Begins self.old.bytes self.new.bytes }
        ensures memory { IsErrOf result StoreFault.Memory → self.new ≡ self.old }
        ensures cause { IsErrOf result StoreFault.Failed → Rose self.old.turns.faults self.new.turns.faults }
        ensures stays { WasExtended (stock_state self.old) (stock_state self.new) }

        ensures turn { TookTurnOrMemory result self.old.turns self.new.turns }
        ensures half { IsErrOf result StoreFault.Failed → self.new.bytes ≡ self.old.bytes ++ take (length piece.now / 2) piece.now }
    {
        let n = self.plan.part_of(piece.len());
        self.calm.append(alloc, &piece[..n])?;
        match self.plan.turn(false) {
            Ok(()) => Ok(()),
            Err(Failed) => Err(StoreFault::Failed),
        }
    }
}
