//! A text that a source holds, read to the source's end.

ghost use Rattle.std.specs.Prelude.{◌≡◌, ◌+◌, ◌≤◌, IfOk, IsErrOf};
ghost use Rattle.dix_base.specs.Told.{Rose};
ghost use Rattle.dix_base.specs.Reading.{IsOver, IsWhole, TookAtMost, most_bytes};

use crate::{Failed, Source};
use std::alloc::Global;

/// A text has at most this many bytes.
pub const MOST_BYTES: usize = 4_194_304;

/// A line of a text has at most this many bytes.
pub const LONGEST_LINE: usize = 4096;

/// Why a text wasn't read.
#[derive(Clone, Copy, Debug, PartialEq, Eq)]
pub enum Unread {
    /// The source failed.
    Failed,
    /// Want of memory.
    Memory,
    /// More than 4,194,304 bytes came.
    TooMany,
}

/// Reads the source to its end, or to one byte more than the 4,194,304 that a text may have. `Failed` comes only
/// where the source's count of faults rose; where a text comes it stayed. Whatever is answered, no more is taken than
/// that one byte more, and where the source failed no more than a text may have.
pub fn read_all<S: Source>(alloc: Global, source: &mut S) -> Result<Vec<u8>, Unread>
    ensures whole { IfOk result (λ v. IsWhole v.items (S.left source.old) (S.left source.new)) }
    ensures over { IsErrOf result Unread.TooMany → IsOver (S.left source.old) (S.left source.new) }
    ensures failed { IsErrOf result Unread.Failed → Rose (S.faults source.old) (S.faults source.new) }
    ensures before { IsErrOf result Unread.Failed → TookAtMost most_bytes (S.left source.old) (S.left source.new) }
    ensures most { TookAtMost (most_bytes + 1) (S.left source.old) (S.left source.new) }
    ensures calm { IfOk result (λ _. S.faults source.new ≡ S.faults source.old) }
    ensures count { S.faults source.old ≤ S.faults source.new }
{
    let mut all = Vec::new(alloc);
    let mut buf = [0u8; 4096];
    let mut room = MOST_BYTES + 1;
    while room > 0 {
        let (part, _) = buf.split_at_mut(room.min(4096));
        let n = match source.take(part) {
            Ok(n) => n,
            Err(Failed) => return Err(Unread::Failed),
        };
        if n == 0 {
            return Ok(all);
        }
        match all.extend_from_slice(&part[..n]) {
            Ok(()) => {}
            Err(_) => return Err(Unread::Memory),
        }
        room -= n;
    }
    Err(Unread::TooMany)
}
