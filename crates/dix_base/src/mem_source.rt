//! A source in memory that fails at the calls of a list.

ghost use Rattle.std.specs.Prelude.{◌≡◌, ◌≤◌, ◌<◌, ◌↔◌, ◌++◌, [], drop, length, min, take, Some, IfOk, IsErr, OnErr, OnOk};
ghost use Rattle.dix_base.specs.Forms.{IsNextListed, TookTurn, no_turns};
ghost use Rattle.dix_base.specs.Told.{Rose};

use crate::fault_plan::FaultPlan;
use crate::{CalmSource, Failed, Source};
use std::marker::Model;

/// A source that gives the bytes that it was made with, and fails at the calls of a list.
#[derive(Drop)]
pub struct MemSource {
    calm: CalmSource,
    plan: FaultPlan,
}

impl Model for MemSource {
    ghost use Rattle.dix_base.specs.Forms.{Supply};

    ghost Value = { Supply };

    ghost view = { λ s. record { left = s.calm; turns = s.plan } };
}

impl MemSource {
    /// A source of these bytes, whose calls of `take` with these numbers, counted from 1, fail.
    pub fn new(bytes: Vec<u8>, fail: Vec<u64>) -> MemSource
        ensures left { result.left ≡ bytes.items }
        ensures turns { result.turns ≡ no_turns fail.items }
    {
        MemSource {
            calm: CalmSource::new(bytes),
            plan: FaultPlan::new(fail),
        }
    }
}

impl Source for MemSource {
    ghost left = { λ s. Some s.left };

    ghost faults = { λ s. s.turns.faults };

    /// Fills the buffer, or as much of it as there are bytes left. A call that is listed fails,
    /// and all that was left is left.
    fn take(&mut self, buf: &mut [u8]) -> Result<usize, Failed>
        ensures bound { IfOk result (λ n. n ≤ length buf.old) }
        ensures taken { IfOk result (λ n. self.old.left ≡ take n buf.new ++ self.new.left) }
        ensures rest { IfOk result (λ n. drop n buf.new ≡ drop n buf.old) }
        ensures end { IfOk result (λ n. n ≡ 0 → 0 < length buf.old → self.old.left ≡ []) }
        ensures kept { OnErr result (self.new.left ≡ self.old.left) }
        ensures cause { OnErr result (Rose self.old.turns.faults self.new.turns.faults) }
        ensures count { self.old.turns.faults ≤ self.new.turns.faults }

        ensures turn { TookTurn result (IsNextListed self.old.turns) self.old.turns self.new.turns }
        ensures most { IfOk result (λ n. n ≡ min (length buf.old) (length self.old.left)) }
        ensures buffer { OnErr result (buf.new ≡ buf.old) }
    {
        self.plan.turn(false)?;
        self.calm.take(buf)
    }
}
