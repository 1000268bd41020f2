//! The system's limit on the size of a file of this process, past which a write would end it by a signal (`XFSZ`).
//!
//! A process can ask for the signal to be ignored, as `trap '' XFSZ` of a shell does for the program that it starts, but
//! this program can't for itself. So it reads its limit, and fails the writes that would pass it.

ghost use Rattle.std.specs.Prelude.{◌≤◌, length};

use crate::streams::{Stream, position_in, word_of};
use std::fs::{self, Metadata};

/// A file that is opened so is written at its end (`O_APPEND` of open(2)).
const APPENDS: u64 = 0o2000;

/// The number of bytes that a file of this process may have, where there is such a limit.
fn soft_limit(rt: &HostRuntime) -> Option<u64> {
    let text = fs::read_to_string(rt, "/proc/self/limits").ok()?;
    word_of(text.as_str(), "Max file size", 3)?.parse().ok()
}

/// The largest number of bytes that a file of this process may have, as far as the system says one.
pub(crate) fn largest_file(rt: &HostRuntime) -> u64 {
    soft_limit(rt).unwrap_or(u64::MAX)
}

/// The place at which a stream that is this plain file is written next.
fn next_place(rt: &HostRuntime, stream: &Stream, file: &Metadata) -> Option<u64> {
    let state = stream.state(rt)?;
    let flags = u64::from_str_radix(word_of(state.as_str(), "flags:", 1)?, 8).ok()?;
    if flags & APPENDS != 0 {
        return Some(file.len());
    }
    position_in(state.as_str())
}

/// How many bytes a stream may still take that is a plain file, where there is a limit.
fn limited_room(rt: &HostRuntime, stream: &Stream) -> Option<u64> {
    let limit = soft_limit(rt)?;
    let file = stream.plain_file(rt)?;
    Some(limit.saturating_sub(next_place(rt, stream, &file)?))
}

/// How many bytes a stream may still take, as far as the system says so.
pub(crate) fn stream_room(rt: &HostRuntime, stream: &Stream) -> u64 {
    limited_room(rt, stream).unwrap_or(u64::MAX)
}

/// The first bytes of a piece, at most so many.
pub(crate) fn front_of(piece: &[u8], most: u64) -> &[u8]
    ensures { length result.now ≤ length piece.now }
{
    let n = (piece.len() as u64).min(most) as usize;
    let (front, _) = piece.split_at(n);
    front
}
