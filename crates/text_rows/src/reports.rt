//! Reports of replies.

use crate::reasons::blocks_of;
use crate::sinks::{left, sink_of};
use dix_base::ByteList;
use report_text::print_report;
use stack_ops::Reply;
use std::alloc::{AllocError, Global};
use test_table::{bytes_of, cut, small};

/// The reply of a word: whole, silent, medium, bad:REASON,.. or shown:BYTES.
fn reply_of(alloc: Global, word: &str) -> Result<Reply, AllocError> {
    let (kind, rest) = word.split_once(':').unwrap_or((word, ""));
    Ok(match kind {
        "whole" => Reply::Whole,
        "silent" => Reply::Silent,
        "bad" => Reply::Bad(blocks_of(alloc, rest)?),
        "shown" => Reply::Shown(ByteList::from_vec(bytes_of(alloc, rest)?)),
        _ => Reply::Medium,
    })
}

/// The replies of some words; none of none.
pub(crate) fn replies_of(alloc: Global, words: &str) -> Result<Vec<Reply>, AllocError> {
    let mut replies = Vec::new(alloc);
    if words.is_empty() {
        return Ok(replies);
    }
    for word in words.split(' ') {
        replies.push(reply_of(alloc, word)?)?;
    }
    Ok(replies)
}

/// What is left of the report in the sink of a row.
pub(crate) fn report_row(
    alloc: Global,
    words: &str,
    replies: &[Reply],
    whole: &[u8],
) -> Result<String, AllocError> {
    let (room, call) = cut(words);
    let mut sink = sink_of(alloc, small(room), call)?;
    let written = print_report(&mut sink, replies);
    left(alloc, written, &sink, whole)
}
