//! A sink in memory.

ghost use Rattle.std.specs.Prelude.{◌≡◌, ◌≤◌, ◌<◌, ◌+◌, ◌↔◌, ◌⊎◌, ◌++◌, [], length, min, take, Some, IfOk, IsErr, IsOk, OnErr, OnOk};
ghost use Rattle.std.proofs.Math.Seq.{take-length};
ghost use Rattle.dix_base.specs.Forms.{IsFull, IsNextListed, TookTurn, no_turns};
ghost use Rattle.dix_base.specs.Told.{Rose};

use crate::fault_plan::FaultPlan;
use crate::{Failed, Sink};
use std::alloc::{AllocError, Global};
use std::marker::Model;

/// A sink that keeps the bytes that it took, has room for so many, and fails at the calls of a
/// list.
#[derive(Drop)]
pub struct MemSink {
    held: Vec<u8>,
    room: usize,
    plan: FaultPlan,
}

impl Model for MemSink {
    ghost use Rattle.std.specs.Prelude.{◌≤◌, ◌+◌, vec_capacity, vec_len};
    ghost use Rattle.dix_base.specs.Forms.{Intake};

    ghost Value = { Intake };

    ghost view = { λ s. record { taken = s.held.items; room = s.room; turns = s.plan } };

    ghost invariant = { λ s. vec_len s.held + s.room ≤ vec_capacity s.held };
}

impl MemSink {
    /// A sink with room for so many bytes, whose calls of `put` with these numbers, counted from
    /// 1, fail. All its memory is taken here, and the one error is want of it.
    pub fn new(alloc: Global, room: u32, fail: Vec<u64>) -> Result<MemSink, AllocError>
        ensures taken { IfOk result (λ s. s.taken ≡ []) }
        ensures room { IfOk result (λ s. s.room ≡ room) }
        ensures turns { IfOk result (λ s. s.turns ≡ no_turns fail.items) }
    {
        let room = room as usize;
        Ok(MemSink {
            held: Vec::with_capacity(alloc, room)?,
            room,
            plan: FaultPlan::new(fail),
        })
    }

    /// All bytes that it took, in order.
    pub fn bytes(&self) -> &[u8]
        ensures { result.now ≡ self.now.taken }
    {
        self.held.as_slice()
    }
}

impl Sink for MemSink {
    ghost taken = { λ s. Some s.taken };

    ghost passed = { λ s. Some s.taken };

    ghost faults = { λ s. s.turns.faults };

    /// Takes as many bytes as there is room for. A call fails where it is listed, or where the
    /// piece isn't empty and no room is left; then it takes none.
    fn put(&mut self, bytes: &[u8]) -> Result<usize, Failed>
        ensures bound { IfOk result (λ n. n ≤ length bytes.now) }
        ensures some { IfOk result (λ n. 0 < length bytes.now → 0 < n) }
        ensures taken { IfOk result (λ n. self.new.taken ≡ self.old.taken ++ take n bytes.now) }
        ensures same { OnErr result (self.new.taken ≡ self.old.taken) }
        ensures cause { OnErr result (Rose self.old.turns.faults self.new.turns.faults) }
        ensures count { self.old.turns.faults ≤ self.new.turns.faults }

        ensures turn { TookTurn result (IsNextListed self.old.turns ⊎ IsFull self.old.room bytes.now) self.old.turns self.new.turns }
        ensures most { IfOk result (λ n. n ≡ min (length bytes.now) self.old.room) }
        ensures room { IfOk result (λ n. self.new.room + n ≡ self.old.room) }
        ensures same_room { OnErr result (self.new.room ≡ self.old.room) }
    {
        let is_full = self.room == 0 && !bytes.is_empty();
        self.plan.turn(is_full)?;
        let n = bytes.len().min(self.room);
        if self.held.extend_from_slice(&bytes[..n]).is_err() {
            unreachable!();
        }
        self.room -= n;
        Ok(n)
    }

    /// It holds nothing back.
    fn flush(&mut self) -> Result<(), Failed>
        ensures same { self.new ≡ self.old }
        ensures calm { IsOk result }
    {
        Ok(())
    }

    ghost behind = { λ s. take-length s.taken };
}
