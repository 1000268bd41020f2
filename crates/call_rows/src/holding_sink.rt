//! A sink that holds what it takes until it is flushed.

ghost use Rattle.std.specs.Prelude.{◌≡◌, ◌≤◌, ◌<◌, ◌++◌, length, take, Some, IfOk, IsOk, OnErr, OnOk};
ghost use Rattle.dix_base.specs.Told.{Rose};
ghost use Rattle.call_rows.specs.Holding.{front-behind};

use dix_base::{Failed, MemSink, Sink};
use std::marker::Model;

/// A sink in memory that passes nothing on before it is flushed: as standard output does, whose pieces go to the system
/// together.
#[derive(Drop)]
pub(crate) struct HoldingSink {
    sink: MemSink,
    passed: usize,
}

impl Model for HoldingSink {
    ghost use Rattle.call_rows.specs.Holding.{Holding};

    ghost Value = { Holding };

    ghost view = { λ s. record { intake = s.sink; passed = s.passed } };
}

impl HoldingSink {
    /// A sink that holds what this one takes.
    pub(crate) fn new(sink: MemSink) -> HoldingSink {
        HoldingSink { sink, passed: 0 }
    }

    /// What it passed on; where it failed, what it took.
    pub(crate) fn bytes(&self, has_failed: bool) -> &[u8] {
        let taken = self.sink.bytes();
        if has_failed {
            return taken;
        }
        let (passed, _) = taken.split_at(self.passed.min(taken.len()));
        passed
    }
}

impl Sink for HoldingSink {
    ghost taken = { λ s. Some s.intake.taken };

    ghost passed = { λ s. Some (take s.passed s.intake.taken) };

    ghost faults = { λ s. s.intake.turns.faults };

    /// Takes what the sink in memory takes.
    fn put(&mut self, bytes: &[u8]) -> Result<usize, Failed>
        ensures bound { IfOk result (λ n. n ≤ length bytes.now) }
        ensures some { IfOk result (λ n. 0 < length bytes.now → 0 < n) }
        ensures taken { IfOk result (λ n. self.new.intake.taken ≡ self.old.intake.taken ++ take n bytes.now) }
        ensures same { OnErr result (self.new.intake.taken ≡ self.old.intake.taken) }
        ensures calm { OnOk result (self.new.intake.turns.faults ≡ self.old.intake.turns.faults) }
        ensures cause { OnErr result (Rose self.old.intake.turns.faults self.new.intake.turns.faults) }
        ensures count { self.old.intake.turns.faults ≤ self.new.intake.turns.faults }
    {
        self.sink.put(bytes)
    }

    /// Passes on all that it took.
    fn flush(&mut self) -> Result<(), Failed>
        ensures same { self.new.intake ≡ self.old.intake }
        ensures passed { take self.new.passed self.new.intake.taken ≡ self.new.intake.taken }
        ensures calm { IsOk result }
    {
        self.passed = self.sink.bytes().len();
        Ok(())
    }

    ghost behind = { λ s. front-behind s.passed s.intake.taken };
}
