//! Standard error as a sink.

ghost use Rattle.std.specs.Prelude.{◌≡◌, ◌≤◌, ◌<◌, None, IfOk, IsOk, OnErr, OnOk, length};
ghost use Rattle.dix_base.specs.Forms.{one_more};
ghost use Rattle.dix_base.specs.Told.{Rose};

use crate::fault_plan::raise;
use crate::size_limit::stream_room;
use crate::stdout_sink::written;
use crate::streams::ERRORS;
use crate::{Failed, Sink};
use std::io::Stderr;
use std::marker::Model;

/// Standard error. It doesn't tell what it took, and holds nothing back.
#[derive(Drop)]
pub struct StderrSink {
    output: Stderr,
    /// So many bytes may still go.
    left: u64,
    faults: u64,
}

impl Model for StderrSink {
    ghost use Rattle.std.specs.Prelude.{ℕ};

    ghost Value = { ℕ };

    ghost view = { λ s. s.faults };
}

impl StderrSink {
    /// The standard error of this process. A contract sees its count of faults. A limit on the size of files holds for
    /// it as for standard output.
    pub fn new(rt: HostRuntime) -> StderrSink
        ensures { result ≡ 0 }
    {
        StderrSink {
            left: stream_room(&rt, &ERRORS),
            output: rt.stderr(),
            faults: 0,
        }
    }
}

impl Sink for StderrSink {
    ghost taken = { λ s. None };

    ghost passed = { λ s. None };

    ghost faults = { λ s. s };

    /// Makes one write of the piece, if it isn't empty.
    fn put(&mut self, bytes: &[u8]) -> Result<usize, Failed>
        ensures bound { IfOk result (λ n. n ≤ length bytes.now) }
        ensures some { IfOk result (λ n. 0 < length bytes.now → 0 < n) }
        ensures cause { OnErr result (Rose self.old self.new) }
        ensures count { self.old ≤ self.new }

        ensures passed { OnOk result (self.new ≡ self.old) }
        ensures failed { OnErr result (self.new ≡ one_more self.old) }
    {
        if bytes.is_empty() {
            return Ok(0);
        }
        if let Some(n) = written(&mut self.output, &mut self.left, bytes) {
            return Ok(n);
        }
        raise(&mut self.faults);
        Err(Failed)
    }

    /// It holds nothing back.
    fn flush(&mut self) -> Result<(), Failed>
        ensures same { self.new ≡ self.old }
        ensures calm { IsOk result }
    {
        Ok(())
    }

    ghost behind = { λ s. tt };
}
