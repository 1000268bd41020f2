//! The check of a dump as it comes.

ghost use Rattle.std.specs.Prelude.{◌≡◌, ◌+◌, ◌*◌, ◌^◌, ◌<◌, ◌≤◌, Err, IfOk, length, true};
ghost use Rattle.rig_api.specs.Frames.{frames_of};
ghost use Rattle.report_text.specs.Writing.{Wrote};
ghost use Rattle.dump_check.specs.Forms.{is_fit, stride_of};
ghost use Rattle.dump_check.specs.Lines.{blocks_text};
ghost use Rattle.dump_check.specs.Tallies.{IsTally, counted_all};
ghost use Rattle.dump_check.specs.Walks.{CheckEnds, WalkEnds};

use crate::form::Dump;
use crate::lines::write_block;
use crate::summing::write_last;
use crate::tally::DumpTally;
use dix_base::{Failed, Sink, Source};
use image_text::fill;

/// So many blocks are checked at most. No source has as many.
pub const MOST_BLOCKS: u64 = 0x4000_0000_0000_0000;

/// Why a dump isn't checked to its end.
#[derive(Clone, Copy, Debug, PartialEq, Eq)]
pub enum CheckFault {
    /// The source failed.
    Source,
    /// The sink failed.
    Sink,
    /// It has `MOST_BLOCKS` or more.
    Endless,
}

/// A dump that was checked.
#[derive(Clone, Copy, Debug, PartialEq, Eq)]
pub struct Checked {
    /// What was counted of its blocks.
    pub tally: DumpTally,
    /// The bytes behind its last whole block.
    pub rest: u64,
}

/// Writes the lines of those of so many blocks that are at fault, and counts them behind those that were counted.
fn check_blocks<O: Sink>(
    out: &mut O,
    dump: Dump,
    before: DumpTally,
    count: usize,
    blocks: &[u8],
) -> Result<DumpTally, Failed>
    requires fit { is_fit dump.form ≡ true }
    requires long { length blocks.now ≡ count * stride_of dump.form }
    requires end { dump.first + (before.blocks + count) < 2 ^ 64 }
    requires tally { IsTally before }
    ensures value { IfOk result (λ t. t ≡ counted_all dump.form before (frames_of (stride_of dump.form) count blocks.now)) }
    ensures tally { IfOk result IsTally }
    ensures more { IfOk result (λ t. t.blocks ≡ before.blocks + count) }
    ensures wrote { Wrote O.taken O.faults (blocks_text dump before.blocks (frames_of (stride_of dump.form) count blocks.now))
        out.old out.new result }
{
    let each = dump.form.stride();
    let mut rest = blocks;
    let mut left = count;
    let mut tally = before;
    while left > 0 {
        let (block, more) = rest.split_at(each);
        let found = write_block(out, dump, tally.blocks, block)?;
        tally = tally.counted(found);
        rest = more;
        left -= 1;
    }
    Ok(tally)
}

/// Checks the blocks that the source gives, by pieces of so many, which `room` just holds.
fn check_pieces<S: Source, O: Sink>(
    source: &mut S,
    dump: Dump,
    most: usize,
    room: &mut [u8],
    out: &mut O,
) -> Result<Checked, CheckFault>
    requires fit { is_fit dump.form ≡ true }
    requires some { 0 < most }
    requires room { length room.old ≡ most * stride_of dump.form }
    requires short { length room.old < 2 ^ 32 }
    requires first { dump.first < 2 ^ 63 }
    ensures ends { WalkEnds result dump (S.faults source.old) (S.faults source.new) (S.left source.old) (S.left source.new)
        (O.faults out.old) (O.faults out.new) (O.taken out.old) (O.taken out.new) }
    ensures tally { IfOk result (λ c. IsTally c.tally) }
    ensures sources { S.faults source.old ≤ S.faults source.new }
    ensures sinks { O.faults out.old ≤ O.faults out.new }
{
    let each = dump.form.stride();
    let mut tally = DumpTally::NONE;
    while tally.blocks < MOST_BLOCKS {
        let got = match fill(source, room) {
            Ok(got) => got,
            Err(Failed) => return Err(CheckFault::Source),
        };
        let whole = got / each;
        tally = match check_blocks(out, dump, tally, whole, &room[..whole * each]) {
            Ok(tally) => tally,
            Err(Failed) => return Err(CheckFault::Sink),
        };
        if whole < most {
            return Ok(Checked {
                tally,
                rest: (got % each) as u64,
            });
        }
    }
    Err(CheckFault::Endless)
}

/// Checks the blocks and writes the lines behind theirs.
fn check_all<S: Source, O: Sink>(
    source: &mut S,
    dump: Dump,
    room: &mut [u8],
    out: &mut O,
) -> Result<Checked, CheckFault>
    requires fit { is_fit dump.form ≡ true }
    requires least { stride_of dump.form ≤ length room.old }
    requires short { length room.old < 2 ^ 32 }
    requires first { dump.first < 2 ^ 63 }
    ensures ends { CheckEnds result dump (S.faults source.old) (S.faults source.new) (S.left source.old) (S.left source.new)
        (O.faults out.old) (O.faults out.new) (O.taken out.old) (O.taken out.new) }
    ensures sources { S.faults source.old ≤ S.faults source.new }
    ensures sinks { O.faults out.old ≤ O.faults out.new }
{
    let each = dump.form.stride();
    let most = room.len() / each;
    let (room, _) = room.split_at_mut(most * each);
    let checked = match check_pieces(source, dump, most, room, out) {
        Ok(checked) => checked,
        Err(fault) => return Err(fault),
    };
    match write_last(out, dump.form, checked.tally, checked.rest) {
        Ok(()) => Ok(checked),
        Err(Failed) => Err(CheckFault::Sink),
    }
}

/// Checks the dump that the source gives, to its end, and writes a line for each bad block, then how many blocks there
/// were, were bad and weren't checked, by which number most reference tags differ, where they do, and how many bytes there
/// are of a block that is cut off. The blocks come into `room` in pieces of as many as it holds. The sink passes on all
/// that it holds.
///
/// `Source` and `Sink` come only where their count of faults rose, `Endless` behind `MOST_BLOCKS`; then the beginning of
/// the text was written.
pub fn check_dump<S: Source, O: Sink>(
    source: &mut S,
    dump: Dump,
    room: &mut [u8],
    out: &mut O,
) -> Result<Checked, CheckFault>
    requires fit { is_fit dump.form ≡ true }
    requires least { stride_of dump.form ≤ length room.old }
    requires short { length room.old < 2 ^ 32 }
    requires first { dump.first < 2 ^ 63 }
    ensures checked { CheckEnds result dump (S.faults source.old) (S.faults source.new) (S.left source.old) (S.left source.new)
        (O.faults out.old) (O.faults out.new) (O.taken out.old) (O.taken out.new) }
    ensures sources { S.faults source.old ≤ S.faults source.new }
    ensures handed { (result ≡ Err CheckFault.Sink → ⊥) → O.passed out.new ≡ O.taken out.new }
{
    let ended = check_all(source, dump, room, out);
    match out.flush() {
        Ok(()) => ended,
        Err(Failed) => Err(CheckFault::Sink),
    }
}
