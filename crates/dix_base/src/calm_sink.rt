//! A sink that takes everything and never fails.

ghost use Rattle.std.specs.Prelude.{◌≡◌, ◌≤◌, ◌<◌, length, None, IfOk, IsOk};

use crate::{Failed, Sink};

/// A sink that takes every piece whole and keeps nothing, so it tells no content. It never fails.
#[derive(Drop)]
pub struct CalmSink;

impl CalmSink {
    /// A sink.
    pub fn new() -> CalmSink {
        CalmSink
    }
}

impl Sink for CalmSink {
    ghost taken = { λ s. None };

    ghost passed = { λ s. None };

    ghost faults = { λ s. 0 };

    /// Takes the whole piece. It never fails.
    fn put(&mut self, bytes: &[u8]) -> Result<usize, Failed>
        ensures bound { IfOk result (λ n. n ≤ length bytes.now) }
        ensures some { IfOk result (λ n. 0 < length bytes.now → 0 < n) }

        ensures calm { IsOk result }
        ensures whole { IfOk result (λ n. n ≡ length bytes.now) }
    {
        Ok(bytes.len())
    }

    /// It holds nothing back.
    fn flush(&mut self) -> Result<(), Failed>
        ensures calm { IsOk result }
    {
        Ok(())
    }

    ghost behind = { λ s. tt };
}
