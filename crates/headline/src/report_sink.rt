//! A sink in memory that takes all of a report.

ghost use Rattle.std.specs.Prelude.{◌≡◌, ◌≤◌, ◌<◌, ◌++◌, [], length, take, Some, IfOk, IsOk, OnErr, OnOk};
ghost use Rattle.std.proofs.Math.Seq.{take-length};
ghost use Rattle.dix_base.specs.Told.{Rose};

use dix_base::{Failed, Sink};
use std::alloc::Global;
use std::marker::Model;

/// A sink that keeps all bytes that it took. A call fails for want of memory alone.
#[derive(Drop)]
pub(crate) struct ReportSink {
    held: Vec<u8>,
    faults: u64,
}

impl Model for ReportSink {
    ghost use Rattle.headline.specs.Words.{KeptSink};

    ghost Value = { KeptSink };

    ghost view = { λ s. record { bytes = s.held.items; faults = s.faults } };
}

impl ReportSink {
    pub(crate) fn new(alloc: Global) -> ReportSink
        ensures none { result.bytes ≡ [] }
        ensures faults { result.faults ≡ 0 }
    {
        ReportSink {
            held: Vec::new(alloc),
            faults: 0,
        }
    }

    /// All bytes that it took.
    pub(crate) fn into_bytes(self) -> Vec<u8>
        ensures { result.items ≡ self.bytes }
    {
        self.held
    }
}

impl Sink for ReportSink {
    ghost taken = { λ s. Some s.bytes };

    ghost passed = { λ s. Some s.bytes };

    ghost faults = { λ s. s.faults };

    /// Takes the whole piece.
    fn put(&mut self, bytes: &[u8]) -> Result<usize, Failed>
        ensures bound { IfOk result (λ n. n ≤ length bytes.now) }
        ensures some { IfOk result (λ n. 0 < length bytes.now → 0 < n) }
        ensures taken { IfOk result (λ n. self.new.bytes ≡ self.old.bytes ++ take n bytes.now) }
        ensures same { OnErr result (self.new.bytes ≡ self.old.bytes) }
        ensures calm { OnOk result (self.new.faults ≡ self.old.faults) }
        ensures cause { OnErr result (Rose self.old.faults self.new.faults) }
        ensures count { self.old.faults ≤ self.new.faults }
    {
        if self.held.extend_from_slice(bytes).is_err() {
            self.faults = self.faults.saturating_add(1);
            return Err(Failed);
        }
        Ok(bytes.len())
    }

    /// It holds nothing back.
    fn flush(&mut self) -> Result<(), Failed>
        ensures same { self.new ≡ self.old }
        ensures calm { IsOk result }
    {
        Ok(())
    }

    ghost behind = { λ s. take-length s.bytes };
}
