//! A source in memory that never fails.

ghost use Rattle.std.specs.Prelude.{◌≡◌, ◌≤◌, ◌<◌, ◌++◌, [], drop, length, min, take, Some, IfOk, IfSome, IsOk, IsSome};

use crate::{Failed, Source};
use std::marker::Model;

/// A source that gives the bytes that it was made with and never fails. A contract sees it as the
/// bytes that are left.
#[derive(Drop)]
pub struct CalmSource {
    held: Vec<u8>,
    at: usize,
}

impl Model for CalmSource {
    ghost use Rattle.std.specs.Prelude.{ℕ, List, ◌≤◌, drop, length};

    ghost Value = { List ℕ };

    ghost view = { λ s. drop s.at s.held.items };

    ghost invariant = { λ s. s.at ≤ length s.held.items };
}

impl CalmSource {
    /// A source of these bytes.
    pub fn new(bytes: Vec<u8>) -> CalmSource
        ensures { result ≡ bytes.items }
    {
        CalmSource { held: bytes, at: 0 }
    }
}

impl Source for CalmSource {
    ghost left = { λ s. Some s };

    ghost faults = { λ s. 0 };

    /// Fills the buffer, or as much of it as there are bytes left. It never fails.
    fn take(&mut self, buf: &mut [u8]) -> Result<usize, Failed>
        ensures bound { IfOk result (λ n. n ≤ length buf.old) }
        ensures taken { IfOk result (λ n. self.old ≡ take n buf.new ++ self.new) }
        ensures end { IfOk result (λ n. n ≡ 0 → 0 < length buf.old → self.old ≡ []) }
        ensures rest { IfOk result (λ n. drop n buf.new ≡ drop n buf.old) }

        ensures calm { IsOk result }
        ensures most { IfOk result (λ n. n ≡ min (length buf.old) (length self.old)) }
    {
        let left = &self.held[self.at..];
        let n = buf.len().min(left.len());
        buf[..n].copy_from_slice(&left[..n]);
        self.at += n;
        Ok(n)
    }

    /// All that is left is known.
    fn len(&self) -> Option<u64>
        ensures known { IfSome result (λ n. n ≡ length self.now) }

        ensures calm { IsSome result }
    {
        Some((self.held.len() - self.at) as u64)
    }
}
