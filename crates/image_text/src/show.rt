//! The text that tells the stored blocks of a place.

ghost use Rattle.std.specs.Prelude.{◌≡◌, ◌+◌, ◌*◌, ◌^◌, ◌<◌, IfOk, length};
ghost use Rattle.report_text.specs.Writing.{Wrote};
ghost use Rattle.rig_api.specs.Frames.{frames_of, stored_size};
ghost use Rattle.image_text.specs.ShowText.{count_bad, count_unchecked, first_line, image_text, last_line, one_if};
ghost use Rattle.image_text.specs.Sights.{block_text, is_at_fault, is_unchecked, verdict_of};

use crate::sight::{Verdict, add_block, is_at_fault, is_unchecked};
use dix_base::{Failed, Sink};
use report_text::{Line, add, add_number, write_all};
use rig_api::{UnitSpec, stored_size};

/// How many blocks are at fault, and how many aren't checked.
#[derive(Clone, Copy, Debug, PartialEq, Eq)]
pub struct Tally {
    /// The blocks at fault.
    pub bad: u32,
    /// The blocks that aren't checked: escapes, and all blocks of type 0.
    pub unchecked: u32,
}

/// The bytes of a stored block.
pub(crate) fn stored_len(unit: UnitSpec) -> usize
    ensures { result ≡ stored_size unit.ty unit.size }
{
    stored_size(unit.ty, unit.size)
}

/// The number of blocks at fault or that differ, with this one.
pub(crate) fn counted(bad: u32, is_bad: bool) -> u32
    requires { bad + 1 < 2 ^ 32 }
    ensures { result ≡ bad + one_if is_bad }
{
    if is_bad { bad + 1 } else { bad }
}

/// The blocks that were counted, with one of which this is found.
fn tallied(tally: Tally, verdict: Verdict) -> Tally
    requires bad { tally.bad + 1 < 2 ^ 32 }
    requires unchecked { tally.unchecked + 1 < 2 ^ 32 }
    ensures bad { result.bad ≡ tally.bad + one_if (is_at_fault verdict) }
    ensures unchecked { result.unchecked ≡ tally.unchecked + one_if (is_unchecked verdict) }
{
    Tally {
        bad: counted(tally.bad, is_at_fault(verdict)),
        unchecked: counted(tally.unchecked, is_unchecked(verdict)),
    }
}

/// Writes the first line.
pub(crate) fn write_first<O: Sink>(out: &mut O) -> Result<(), Failed>
    ensures { Wrote O.taken O.faults first_line out.old out.new result }
{
    write_all(out, b"dix show 1\n")
}

/// Writes the line of a stored block, unless the blocks at fault alone are told and it isn't one, and says what is found
/// of it.
fn write_block<O: Sink>(
    out: &mut O,
    only_bad: bool,
    dev: u32,
    unit: UnitSpec,
    lba: u64,
    block: &[u8],
) -> Result<Verdict, Failed>
    requires { length block.now ≡ stored_size unit.ty unit.size }
    ensures verdict { IfOk result (λ v. v ≡ verdict_of unit.ty unit.size lba block.now) }
    ensures wrote { Wrote O.taken O.faults (block_text only_bad dev unit.ty unit.size lba block.now) out.old out.new result }
{
    let mut line = Line::new();
    let verdict = add_block(&mut line, dev, unit, lba, block);
    if only_bad && !is_at_fault(verdict) {
        return Ok(verdict);
    }
    write_all(out, line.as_slice())?;
    Ok(verdict)
}

/// Writes a line for each of so many stored blocks, the first of which has this address, or for those at fault alone, and
/// says how many of them are at fault or unchecked. A sink that fails has taken a prefix of the lines.
pub(crate) fn write_blocks<O: Sink>(
    out: &mut O,
    only_bad: bool,
    dev: u32,
    unit: UnitSpec,
    first: u64,
    count: u32,
    frames: &[u8],
) -> Result<Tally, Failed>
    requires stored { length frames.now ≡ count * stored_size unit.ty unit.size }
    requires end { first + count < 2 ^ 64 }
    ensures bad { IfOk result (λ t. t.bad ≡ count_bad unit.ty unit.size dev first (frames_of (stored_size unit.ty unit.size) count frames.now)) }
    ensures unchecked { IfOk result (λ t. t.unchecked ≡ count_unchecked unit.ty unit.size first (frames_of (stored_size unit.ty unit.size) count frames.now)) }
    ensures wrote { Wrote O.taken O.faults
        (image_text only_bad dev unit.ty unit.size first (frames_of (stored_size unit.ty unit.size) count frames.now))
        out.old out.new result }
{
    let mut rest = frames;
    let mut lba = first;
    let mut left = count;
    let mut tally = Tally {
        bad: 0,
        unchecked: 0,
    };
    while left > 0 {
        let (block, more) = rest.split_at(stored_len(unit));
        let verdict = write_block(out, only_bad, dev, unit, lba, block)?;
        tally = tallied(tally, verdict);
        rest = more;
        lba += 1;
        left -= 1;
    }
    Ok(tally)
}

fn last_line(count: u32, tally: Tally) -> Line
    ensures { result.items ≡ last_line count tally }
{
    let mut line = Line::new();
    add(&mut line, b"shown ");
    add_number(&mut line, u64::from(count));
    add(&mut line, b" bad ");
    add_number(&mut line, u64::from(tally.bad));
    add(&mut line, b" unchecked ");
    add_number(&mut line, u64::from(tally.unchecked));
    add(&mut line, b"\n");
    line
}

/// Writes the last line: how many blocks were told of, and how many of them are at fault or unchecked.
pub(crate) fn write_last<O: Sink>(out: &mut O, count: u32, tally: Tally) -> Result<(), Failed>
    ensures { Wrote O.taken O.faults (last_line count tally) out.old out.new result }
{
    write_all(out, last_line(count, tally).as_slice())
}
