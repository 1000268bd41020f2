//! What is wrong with a line of a script over its volume.

ghost use Rattle.std.specs.Prelude.{◌≡◌, eqb, slice_get, take, Some};
ghost use Rattle.std.specs.List.{position};
ghost use Rattle.script_text.specs.Bindings.{is_at_medium, request_of};
ghost use Rattle.volume_table.specs.Entries.{entry_len};
ghost use Rattle.volume_table.specs.Places.{volume_len};
ghost use Rattle.fault_marks.specs.Closer.{bound_closer, bound_fault, bound_line, bound_op, keep_closer, kind_closer, past_volume, request_closer, shift_closer, told_number};

use crate::closer::{Closer, at_word, plain};
use crate::detail::Detail;
use fault_schedule::{Crossing, FaultKind, FaultLine};
use script_text::{Script, ScriptKind, is_misplaced, is_named, is_read, is_shifted, request_at};
use stack_ops::Op;
use volume_table::Entry;

fn is_at_medium(at: Crossing) -> bool
    ensures { result ≡ is_at_medium at }
{
    match at {
        Crossing::TargetToMedium => true,
        _ => false,
    }
}

/// A shift behind these lines.
fn shift_closer(earlier: &[FaultLine], line: &FaultLine, reads: bool) -> Closer
    ensures { result ≡ shift_closer earlier.now line.now reads }
{
    if is_misplaced(reads, line.at) {
        return at_word(Detail::ShiftStored, 2);
    }
    if is_shifted(earlier, line.op) {
        return at_word(Detail::ShiftTwice, 1);
    }
    at_word(Detail::ShiftAway, 3)
}

/// A block that a line behind these loses or tears, in a script of blocks of this size.
fn keep_closer(size: u32, earlier: &[FaultLine], line: &FaultLine) -> Closer
    ensures { result ≡ keep_closer size earlier.now line.now }
{
    if !is_at_medium(line.at) {
        return at_word(Detail::NoWrite, 1);
    }
    if is_named(earlier, line.op, line.k) {
        return at_word(Detail::NamedTwice, 2);
    }
    let stored = u64::from(size);
    at_word(Detail::KeptWhole { stored }, 3)
}

/// A line behind these whose request has the block.
fn kind_closer(size: u32, earlier: &[FaultLine], line: &FaultLine, reads: bool) -> Closer
    ensures { result ≡ kind_closer size earlier.now line.now reads line.now.kind }
{
    match line.kind {
        FaultKind::Flip { .. } => plain(),
        FaultKind::Shift { .. } => shift_closer(earlier, line, reads),
        FaultKind::Keep { .. } => keep_closer(size, earlier, line),
        FaultKind::Fail => at_word(Detail::NamedTwice, 2),
    }
}

/// A line behind these, whose op is this request, if any.
fn request_closer(
    size: u32,
    earlier: &[FaultLine],
    line: &FaultLine,
    reads: bool,
    request: Option<(u64, u32)>,
) -> Closer
    ensures { result ≡ request_closer size earlier.now line.now reads request }
{
    match request {
        None => at_word(Detail::NoRequest, 1),
        Some((_, blocks)) => {
            if blocks <= line.k {
                return at_word(Detail::NoBlock { blocks }, 2);
            }
            kind_closer(size, earlier, line, reads)
        }
    }
}

/// A fault line, counted from 0.
fn bound_fault(script: &Script, i: usize) -> Closer
    ensures { result ≡ bound_fault script.now i (slice_get script.now.faults i) }
{
    let faults = script.faults.as_slice();
    match faults.get(i) {
        None => plain(),
        Some(line) => request_closer(
            script.block,
            &faults[..i],
            line,
            is_read(script.ops.as_slice(), line.op),
            request_at(script.ops.as_slice(), line.op),
        ),
    }
}

fn entry_len(entry: &Entry) -> u64
    ensures { result ≡ entry_len entry.now }
{
    match entry {
        Entry::Linear(linear) => linear.len,
        Entry::Stripe(stripe) => stripe.len,
    }
}

/// How many blocks the volume has.
fn blocks_of(entries: &[Entry]) -> u64
    ensures { result ≡ told_number (volume_len entries.now) }
{
    let mut blocks = 0u64;
    for entry in entries {
        blocks = blocks.saturating_add(entry_len(entry));
    }
    blocks
}

/// The first block and the number of blocks of a request.
fn request_of(op: &Op) -> Option<(u64, u32)>
    ensures { result ≡ request_of op.now }
{
    match op {
        Op::Write { v, n, .. } => Some((*v, *n)),
        Op::Fetch { v, n, .. } => Some((*v, *n)),
        Op::WritePi { v, n, .. } => Some((*v, *n)),
        Op::FetchPi { v, n, .. } => Some((*v, *n)),
        _ => None,
    }
}

/// A request past the end of a volume.
fn past_volume(entries: &[Entry], request: Option<(u64, u32)>) -> Closer
    ensures { result ≡ past_volume entries.now request }
{
    match request {
        None => plain(),
        Some((first, n)) => {
            let blocks = blocks_of(entries);
            let last = first.saturating_add(u64::from(n.saturating_sub(1)));
            at_word(
                Detail::PastVolume {
                    blocks,
                    first,
                    last,
                },
                1,
            )
        }
    }
}

/// An op over a volume.
fn op_closer(entries: &[Entry], op: &Op) -> Closer
    ensures { result ≡ bound_op entries.now (Some op.now) }
{
    match op {
        Op::Overwrite { .. } => at_word(Detail::NoStored, 1),
        _ => past_volume(entries, request_of(op)),
    }
}

/// An op, counted from 0.
fn bound_op(script: &Script, i: usize) -> Closer
    ensures { result ≡ bound_op script.now.entries (slice_get script.now.ops i) }
{
    match script.ops.as_slice().get(i) {
        None => plain(),
        Some(op) => op_closer(script.entries.as_slice(), op),
    }
}

fn place_of(lines: &[u32], line: u32) -> Option<usize>
    ensures { result ≡ position (eqb line) lines.now }
{
    lines.iter().position(|number| line == *number)
}

/// The line of this place among those of the faults and ops.
fn bound_line(script: &Script, place: usize) -> Closer
    ensures { result ≡ bound_line script.now (Some place) }
{
    let faults = script.faults.as_slice().len();
    if place < faults {
        return bound_fault(script, place);
    }
    bound_op(script, place - faults)
}

/// What is wrong with the line of this number.
pub(crate) fn bound_closer(kind: ScriptKind, script: &Script, line: u32) -> Closer
    ensures { result ≡ bound_closer kind script.now line }
{
    if let ScriptKind::NoIntegrity = kind {
        return at_word(Detail::NoTuples, 0);
    }
    match place_of(script.lines.as_slice(), line) {
        Some(place) => bound_line(script, place),
        None => plain(),
    }
}
