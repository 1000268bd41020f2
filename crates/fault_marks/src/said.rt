//! What is wrong with a line, by what it says.

ghost use Rattle.std.specs.Prelude.{◌≡◌, ◌≤◌};
ghost use Rattle.fault_marks.specs.Closer.{alteration_of, count_closer, fault_closer, flip_closer, lists_closer, long_list, many_closer, many_entry, many_op, range_closer, said_closer, segments_closer, show_detail};

use crate::closer::{Closer, at_word, plain};
use crate::detail::Detail;
use crate::listed::{MOST_SEGS, Sizes, both_closer, data_closer, is_inside, seg_detail};
use fault_schedule::ShortBytes;
use page_pool::Seg;
use pi_tuple::TUPLE;
use script_lines::{OpLine, ScriptKind, ScriptLine};
use script_text::{MOST_LEGS, MOST_OPS, Script};

/// A `put` has at most this many bytes.
const MOST_PUT: usize = 512;

/// An alteration from this offset on, which is this word: past a frame's end, or of zeros alone.
fn flip_closer(off: u32, bytes: &ShortBytes, size: u32, word: usize) -> Closer
    requires { word ≤ 8 }
    ensures { result ≡ flip_closer size off bytes.now word }
{
    let frame = u64::from(size) + TUPLE as u64;
    let end = u64::from(off) + bytes.as_slice().len() as u64;
    if end > frame {
        at_word(Detail::PastFrame { frame, end }, word)
    } else {
        at_word(Detail::NoChange, word + 1)
    }
}

/// What is wrong with the segment of a `show`.
fn show_detail(seg: Seg, pages: u32) -> Detail
    ensures { result ≡ show_detail pages seg }
{
    if is_inside(seg, pages) {
        Detail::LongShow { len: seg.len }
    } else {
        seg_detail(seg, pages)
    }
}

/// What is wrong with the segments of an op.
fn segments_closer(op: &OpLine, sizes: Sizes) -> Closer
    ensures { result ≡ segments_closer sizes.pages sizes.block op.now }
{
    match op {
        OpLine::Fill { seg, .. } => at_word(seg_detail(*seg, sizes.pages), 1),
        OpLine::Show { seg } => at_word(show_detail(*seg, sizes.pages), 1),
        OpLine::Seal {
            n,
            body,
            tuples,
            ..
        } => both_closer(body.as_slice(), tuples.as_slice(), *n, sizes, 2),
        OpLine::Write { n, body, .. } => data_closer(body.as_slice(), *n, sizes, 3),
        OpLine::Read { n, body, .. } => data_closer(body.as_slice(), *n, sizes, 3),
        OpLine::WritePi {
            n,
            body,
            tuples,
            ..
        } => both_closer(body.as_slice(), tuples.as_slice(), *n, sizes, 3),
        OpLine::ReadPi {
            n,
            body,
            tuples,
            ..
        } => both_closer(body.as_slice(), tuples.as_slice(), *n, sizes, 3),
        OpLine::Put { page, off, bytes } => {
            let len = bytes.as_slice().len().min(MOST_PUT) as u32;
            let seg = Seg {
                page: *page,
                off: *off,
                len,
            };
            at_word(seg_detail(seg, sizes.pages), 1)
        }
        _ => plain(),
    }
}

/// N of an op.
fn count_closer(op: &OpLine) -> Closer
    ensures { result ≡ count_closer op.now }
{
    match op {
        OpLine::Seal { n, .. } => at_word(Detail::BadCount { n: *n }, 1),
        OpLine::Write { n, .. } => at_word(Detail::BadCount { n: *n }, 2),
        OpLine::Read { n, .. } => at_word(Detail::BadCount { n: *n }, 2),
        OpLine::WritePi { n, .. } => at_word(Detail::BadCount { n: *n }, 2),
        OpLine::ReadPi { n, .. } => at_word(Detail::BadCount { n: *n }, 2),
        _ => plain(),
    }
}

fn range_closer(line: &ScriptLine) -> Closer
    ensures { result ≡ range_closer line.now }
{
    match line {
        ScriptLine::Op(op) => count_closer(op),
        ScriptLine::Over { .. } => at_word(Detail::OverLegs, 0),
        _ => plain(),
    }
}

/// The bytes that an op alters.
fn alteration_of(op: &OpLine, size: u32) -> Closer
    ensures { result ≡ alteration_of size op.now }
{
    match op {
        OpLine::Flip { off, bytes, .. } => flip_closer(*off, bytes, size, 4),
        _ => plain(),
    }
}

fn fault_closer(line: &ScriptLine, size: u32) -> Closer
    ensures { result ≡ fault_closer size line.now }
{
    match line {
        ScriptLine::Flip { off, bytes, .. } => flip_closer(*off, bytes, size, 5),
        ScriptLine::Shift { .. } => at_word(Detail::NoShift, 3),
        ScriptLine::Op(op) => alteration_of(op, size),
        _ => plain(),
    }
}

/// A list of too many segments, at this word.
fn long_list(segs: &[Seg], word: usize, rest: Closer) -> Closer
    ensures { result ≡ long_list segs.now word rest }
{
    if segs.len() > MOST_SEGS {
        at_word(
            Detail::ManySegments {
                segs: segs.len() as u64,
            },
            word,
        )
    } else {
        rest
    }
}

/// A list that is too long, or all requests.
fn lists_closer(op: &OpLine) -> Closer
    ensures { result ≡ lists_closer op.now }
{
    let many = at_word(Detail::ManyBlocks, 2);
    match op {
        OpLine::Seal { body, tuples, .. } => long_list(
            body.as_slice(),
            2,
            long_list(tuples.as_slice(), 3, plain()),
        ),
        OpLine::Write { body, .. } => long_list(body.as_slice(), 3, many),
        OpLine::Read { body, .. } => long_list(body.as_slice(), 3, many),
        OpLine::WritePi { body, tuples, .. } => {
            long_list(body.as_slice(), 3, long_list(tuples.as_slice(), 4, many))
        }
        OpLine::ReadPi { body, tuples, .. } => {
            long_list(body.as_slice(), 3, long_list(tuples.as_slice(), 4, many))
        }
        _ => plain(),
    }
}

/// An op that is one too many, behind so many.
fn many_op(op: &OpLine, ops: usize) -> Closer
    ensures { result ≡ many_op ops op.now }
{
    if ops >= MOST_OPS {
        at_word(Detail::ManyOps, 0)
    } else {
        lists_closer(op)
    }
}

/// An entry with so many legs.
fn many_entry(legs: usize) -> Closer
    ensures { result ≡ many_entry legs }
{
    if legs > MOST_LEGS {
        at_word(Detail::ManyLegs, 0)
    } else {
        at_word(Detail::ManyEntries, 0)
    }
}

/// A count that is passed with this line, behind so many ops.
fn many_closer(line: &ScriptLine, ops: usize) -> Closer
    ensures { result ≡ many_closer ops line.now }
{
    match line {
        ScriptLine::Inner { .. } => at_word(Detail::ManyInner, 0),
        ScriptLine::Linear(_) => at_word(Detail::ManyEntries, 0),
        ScriptLine::Stripe { legs, .. } => many_entry(legs.as_slice().len()),
        ScriptLine::Over { volumes, .. } => many_entry(volumes.as_slice().len()),
        ScriptLine::Flip { .. }
        | ScriptLine::Shift { .. }
        | ScriptLine::Keep { .. }
        | ScriptLine::Fail { .. } => { at_word(Detail::ManyFaults, 0) }
        ScriptLine::Schedule(_) => at_word(Detail::ManySteps, 0),
        ScriptLine::Op(op) => many_op(op, ops),
        _ => plain(),
    }
}

/// What is wrong with a line that has a fault of this kind, in a script like this one.
pub(crate) fn said_closer(kind: ScriptKind, script: &Script, line: &ScriptLine) -> Closer
    ensures { result ≡ said_closer kind script.now line.now }
{
    match kind {
        ScriptKind::BadRange => range_closer(line),
        ScriptKind::BadFault => fault_closer(line, script.block),
        ScriptKind::TooMany => many_closer(line, script.ops.as_slice().len()),
        ScriptKind::BadSegments => match line {
            ScriptLine::Op(op) => segments_closer(
                op,
                Sizes {
                    pages: script.pages,
                    block: script.block,
                },
            ),
            _ => plain(),
        },
        _ => plain(),
    }
}
