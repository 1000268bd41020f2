//! Sinks in memory, and what they are left with.

use crate::words::quoted;
use dix_base::{Failed, MemSink};
use std::alloc::{AllocError, Global};
use test_table::number;

/// A sink with room for so many bytes, of which the call of this number fails, or none for 0.
pub(crate) fn sink_of(alloc: Global, room: u32, call: &str) -> Result<MemSink, AllocError> {
    MemSink::new(alloc, room.min(65_536), vec![in alloc; number(call)]?)
}

/// What a sink is left with: the whole of a text, or its front of so many bytes once it failed.
pub(crate) fn left(
    alloc: Global,
    written: Result<(), Failed>,
    sink: &MemSink,
    whole: &[u8],
) -> Result<String, AllocError> {
    let bytes = sink.bytes();
    if written.is_ok() && bytes == whole {
        return String::from_str(alloc, "whole");
    }
    let count = bytes.len();
    if written.is_err() && count < whole.len() && whole.starts_with(bytes) {
        return format!(in alloc; "front {count}");
    }
    quoted(alloc, bytes)
}
