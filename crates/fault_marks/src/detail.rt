//! What is wrong with a line, more closely than its kind says, and the sentence of it.

ghost use Rattle.std.specs.Prelude.{◌≡◌, ◌++◌, OnOk, codes, decimal};
ghost use Rattle.fault_marks.specs.Details.{behind_text, blocks_text, detail_text, front_text, many_text};

use crate::sentences::sentence;
use crate::texts::add_number;
use script_text::ScriptKind;
use std::alloc::AllocError;

/// What is wrong with a line.
#[derive(Clone, Copy, Debug, PartialEq, Eq)]
pub(crate) enum Detail {
    /// What the kind says.
    Plain,
    /// Bytes go past the end of a frame.
    PastFrame { frame: u64, end: u64 },
    /// All bytes of an alteration are zero.
    NoChange,
    /// A shift by no block.
    NoShift,
    /// A fault of an op that is none, or no request.
    NoRequest,
    /// A fault of a block that the op hasn't.
    NoBlock { blocks: u32 },
    /// A shift of a write at the medium.
    ShiftStored,
    /// A second shift of an op.
    ShiftTwice,
    /// A shift on units of another type, or off a unit.
    ShiftAway,
    /// A line that loses or tears a block of an op that doesn't write.
    NoWrite,
    /// A line that tears no less than all that is stored of a block.
    KeptWhole { stored: u64 },
    /// A block that an earlier line loses, tears or fails.
    NamedTwice,
    /// An overwrite of a block that isn't there, or doesn't fit the volume.
    NoStored,
    /// A segment without bytes.
    NoBytes,
    /// A segment in a page that isn't there.
    NoPage { pages: u32 },
    /// A segment past the end of its page.
    PastPage { end: u64 },
    /// A `show` of too many bytes.
    LongShow { len: u32 },
    /// Segments of another length together.
    OtherTotal { wanted: u64, given: u64 },
    /// A block in too many segments.
    Scattered,
    /// A segment with a part of a tuple.
    NoWholeTuple,
    /// A request of no block, or of too many.
    BadCount { n: u32 },
    /// An `over` line whose inner volumes don't fit it.
    OverLegs,
    /// A request of blocks that the volume hasn't.
    PastVolume { blocks: u64, first: u64, last: u64 },
    /// A tag is expected of units without tuples.
    NoTuples,
    /// The text ends before `begin`.
    NoBegin,
    /// A line of version 2 in a script of version 1.
    NewLine,
    /// A line of version 3 in a script of an earlier one.
    ThirdLine,
    /// The text is too long.
    LongText,
    /// Too many `inner` lines.
    ManyInner,
    /// Too many entries of the volume.
    ManyEntries,
    /// Too many legs of an entry.
    ManyLegs,
    /// Too many lines of faults.
    ManyFaults,
    /// Too many entries of the schedule.
    ManySteps,
    /// Too many ops.
    ManyOps,
    /// Too many blocks of all requests.
    ManyBlocks,
    /// Too many segments of a list.
    ManySegments { segs: u64 },
}

/// How the sentence of a count that is passed begins.
fn many_text(detail: Detail) -> &'static [u8]
    ensures { result.now ≡ many_text detail }
{
    match detail {
        Detail::LongText => b"a script has at most 4194304 bytes",
        Detail::ManyInner => b"a script has at most 32 inner lines",
        Detail::ManyEntries => b"a volume has at most 16 entries",
        Detail::ManyLegs => b"an entry has at most 8 legs",
        Detail::ManyFaults => b"a script has at most 256 lines of faults",
        Detail::ManySteps => b"a schedule has at most 16384 entries",
        Detail::ManyOps => b"a script has at most 1024 ops",
        Detail::ManyBlocks => b"all requests together have at most 16384 blocks",
        Detail::ManySegments { .. } => b"a list has at most 512 segments, and this has ",
        _ => b"",
    }
}

/// How the sentence begins.
fn front_text(kind: ScriptKind, detail: Detail) -> &'static [u8]
    ensures { result.now ≡ front_text kind detail }
{
    match detail {
        Detail::Plain => sentence(kind),
        Detail::PastFrame { .. } => b"a frame has ",
        Detail::NoChange => b"all bytes are zero, so nothing would change",
        Detail::NoShift => b"a shift by 0 moves nothing",
        Detail::NoRequest => b"this op is not there, or it reads and writes no blocks",
        Detail::NoBlock { .. } => b"blocks are numbered from 0, and this op has ",
        Detail::ShiftStored => b"a write has no shift at the medium",
        Detail::ShiftTwice => b"an earlier line shifts this op",
        Detail::ShiftAway => b"a shift needs units of type 1, and may move no block off its unit",
        Detail::NoWrite =>
            b"the medium loses or tears what an op writes, and this op does not write",
        Detail::KeptWhole { .. } => b"LEN is less than what the unit stores of a block, which is ",
        Detail::NamedTwice => b"an earlier line loses, tears or fails this block",
        Detail::NoStored =>
            b"the image has no such block, or of another type or size than the volume",
        Detail::NoBytes => b"a segment has at least one byte",
        Detail::NoPage { .. } => b"pages are numbered from 0, and the script has ",
        Detail::PastPage { .. } => b"a page has 4096 bytes, and this segment ends at ",
        Detail::LongShow { .. } => b"a show has at most 64 bytes, and this has ",
        Detail::OtherTotal { .. } => b"bytes wanted: ",
        Detail::Scattered => b"a block lies in more than 4 segments",
        Detail::NoWholeTuple => b"a segment of tuples has whole tuples, of 8 bytes each",
        Detail::BadCount { .. } => b"N is 1 to 2048, and this is ",
        Detail::OverLegs => b"an inner volume is not there, or the lengths do not fit LEN and C",
        Detail::PastVolume { .. } => b"the volume has ",
        Detail::NoTuples => b"the units of the volume have no tuples",
        Detail::NoBegin => b"the text ends without a line begin",
        Detail::NewLine => b"this line belongs to version 2, and the script begins with dix 1",
        Detail::ThirdLine =>
            b"this line belongs to version 3, and the script begins with dix 1 or dix 2",
        _ => many_text(detail),
    }
}

/// Puts two numbers behind the sentence, with these words between them.
fn add_two(out: &mut Vec<u8>, one: u64, words: &[u8], other: u64) -> Result<(), AllocError>
    ensures { OnOk result (out.new.items ≡ out.old.items ++ (decimal one ++ (words.now ++ decimal other))) }
{
    add_number(out, one)?;
    out.extend_from_slice(words)?;
    add_number(out, other)
}

/// Puts how many blocks the volume has, and which are wanted, behind the sentence.
fn add_blocks(out: &mut Vec<u8>, blocks: u64, first: u64, last: u64) -> Result<(), AllocError>
    ensures { OnOk result (out.new.items ≡ out.old.items ++ blocks_text blocks first last) }
{
    add_two(out, blocks, b" blocks, blocks wanted: ", first)?;
    out.extend_from_slice(b" to ")?;
    add_number(out, last)
}

/// Puts the numbers behind the sentence.
fn add_behind(out: &mut Vec<u8>, detail: Detail) -> Result<(), AllocError>
    ensures { OnOk result (out.new.items ≡ out.old.items ++ behind_text detail) }
{
    match detail {
        Detail::PastFrame { frame, end } => add_two(out, frame, b" bytes, and these end at ", end),
        Detail::OtherTotal { wanted, given } => add_two(out, wanted, b", given: ", given),
        Detail::PastVolume {
            blocks,
            first,
            last,
        } => add_blocks(out, blocks, first, last),
        Detail::NoBlock { blocks } => add_number(out, u64::from(blocks)),
        Detail::NoPage { pages } => add_number(out, u64::from(pages)),
        Detail::LongShow { len } => add_number(out, u64::from(len)),
        Detail::BadCount { n } => add_number(out, u64::from(n)),
        Detail::PastPage { end } => add_number(out, end),
        Detail::KeptWhole { stored } => add_number(out, stored),
        Detail::ManySegments { segs } => add_number(out, segs),
        _ => Ok(()),
    }
}

/// Puts the sentence behind the text.
pub(crate) fn add_detail(
    out: &mut Vec<u8>,
    kind: ScriptKind,
    detail: Detail,
) -> Result<(), AllocError>
    ensures { OnOk result (out.new.items ≡ out.old.items ++ detail_text kind detail) }
{
    out.extend_from_slice(front_text(kind, detail))?;
    add_behind(out, detail)
}
