//! The rules on a line that come before the segments: tuples without integrity, counts that are
//! passed, requests of no block or of too many; and faults that do nothing.

ghost use Rattle.std.specs.Prelude.{◌≡◌, ◌+◌, ◌≤◌, nat_lt};
ghost use Rattle.std.specs.List.{list_all};
ghost use Rattle.script_text.specs.Drafts.{drafted};
ghost use Rattle.script_text.specs.Rules.{is_bad_fault, is_bad_flip, is_count, is_op_too_many, is_too_many, is_zero, lacks_integrity, needs_tuples, request_blocks};
ghost use Rattle.pi_tuple.specs.declared.TheConstants.{LARGEST_BLOCK};

use crate::draft::Draft;
use crate::{
    MOST_ENTRIES, MOST_FAULTS, MOST_INNER, MOST_LEGS, MOST_OPS, MOST_REQUEST, MOST_SCHEDULE,
};
use bio_core::MOST_BLOCKS;
use fault_schedule::ShortBytes;
use pi_tuple::TUPLE;
use script_lines::{OpLine, ScriptLine};

/// Whether an op has to do with tuples in memory.
fn needs_tuples(op: &OpLine) -> bool
    ensures { result ≡ needs_tuples op.now }
{
    match op {
        OpLine::Seal { .. } | OpLine::WritePi { .. } | OpLine::ReadPi { .. } => true,
        OpLine::Write { app, .. } => app.is_some(),
        _ => false,
    }
}

/// Tuples in memory where the mode has none, or an expected tag where none is checked.
pub(crate) fn lacks_integrity(draft: &Draft, line: &ScriptLine) -> bool
    ensures { result ≡ lacks_integrity (drafted draft.now) line.now }
{
    match line {
        ScriptLine::Expect { .. } => !draft.mode.dix || !draft.mode.dif,
        ScriptLine::Op(op) => !draft.mode.dix && needs_tuples(op),
        _ => false,
    }
}

/// How many blocks a line adds to those of all requests.
pub(crate) fn request_blocks(op: &OpLine) -> u32
    ensures { result ≡ request_blocks op.now }
{
    match op {
        OpLine::Write { n, .. }
        | OpLine::Read { n, .. }
        | OpLine::WritePi { n, .. }
        | OpLine::ReadPi { n, .. } => *n,
        _ => 0,
    }
}

fn is_op_too_many(draft: &Draft, op: &OpLine) -> bool
    ensures { result ≡ is_op_too_many (drafted draft.now) op.now }
{
    draft.ops.len() >= MOST_OPS
        || u64::from(draft.blocks) + u64::from(request_blocks(op)) > u64::from(MOST_BLOCKS)
}

/// A count is passed with this line.
pub(crate) fn is_too_many(draft: &Draft, line: &ScriptLine) -> bool
    ensures { result ≡ is_too_many (drafted draft.now) line.now }
{
    match line {
        ScriptLine::Inner { .. } => draft.inner.len() >= MOST_INNER,
        ScriptLine::Linear(_) => draft.entries.len() >= MOST_ENTRIES,
        ScriptLine::Stripe { legs, .. } => {
            draft.entries.len() >= MOST_ENTRIES || legs.as_slice().len() > MOST_LEGS
        }
        ScriptLine::Flip { .. }
        | ScriptLine::Shift { .. }
        | ScriptLine::Keep { .. }
        | ScriptLine::Fail { .. } => draft.faults.len() >= MOST_FAULTS,
        ScriptLine::Schedule(entries) => {
            draft.schedule.len() + entries.as_slice().len() > MOST_SCHEDULE
        }
        ScriptLine::Op(op) => is_op_too_many(draft, op),
        _ => false,
    }
}

/// A request or a `seal` has 1 to 2,048 blocks.
pub(crate) fn is_count(n: u32) -> bool
    ensures { result ≡ is_count n }
{
    1 <= n && n <= MOST_REQUEST
}

/// So many bytes from this offset on go past the end of a frame of a block of this size.
fn is_past_frame(off: u32, len: usize, size: u32) -> bool
    requires { size ≤ LARGEST_BLOCK }
    ensures { result ≡ nat_lt (size + TUPLE) (off + len) }
{
    let room = u64::from(size + TUPLE as u32);
    let off = u64::from(off);
    off > room || len as u64 > room - off
}

fn are_zero(bytes: &[u8]) -> bool
    ensures { result ≡ list_all is_zero bytes.now }
{
    bytes.iter().all(|byte| *byte == 0)
}

/// The alteration goes past the end of a frame, or alters nothing.
pub(crate) fn is_bad_flip(off: u32, bytes: &ShortBytes, size: u32) -> bool
    requires { size ≤ LARGEST_BLOCK }
    ensures { result ≡ is_bad_flip size off bytes.now }
{
    let bytes = bytes.as_slice();
    is_past_frame(off, bytes.len(), size) || are_zero(bytes)
}

pub(crate) fn is_bad_fault(draft: &Draft, line: &ScriptLine) -> bool
    requires { draft.now.block ≤ LARGEST_BLOCK }
    ensures { result ≡ is_bad_fault (drafted draft.now) line.now }
{
    match line {
        ScriptLine::Flip { off, bytes, .. } => is_bad_flip(*off, bytes, draft.block),
        ScriptLine::Shift { by, .. } => *by == 0,
        _ => false,
    }
}
