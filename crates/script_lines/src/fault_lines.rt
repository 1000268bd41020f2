//! The lines `fault`, `shift`, `lose`, `tear`, `fail` and `schedule`.

ghost use Rattle.std.specs.Prelude.{◌≡◌, ◌≤◌, IfOk};
ghost use Rattle.script_lines.specs.Forms.{IsSound, any_spot_in, fail_form, fault_form, flip_form, flip_spot, lose_form, schedule_form, shift_form, shift_spot, tear_form, wire_or_medium_in};
ghost use Rattle.script_lines.specs.Reading.{IsUnless, Reads, value};
ghost use Rattle.script_words.specs.Numbers.{signed_within};
ghost use Rattle.pi_tuple.specs.declared.TheConstants.{LARGEST_BLOCK};

use crate::line::{ScriptLine, Spot};
use crate::listed::{Listed, some};
use crate::{ScriptKind, WordList, Words};
use fault_schedule::ShortBytes;
use script_words::{choice, signed_within};
use std::alloc::Global;

/// `wire` or `medium`
fn wire_or_medium(word: &[u8]) -> Option<Spot>
    ensures { result ≡ wire_or_medium_in word.now }
{
    if word == b"wire".as_slice() {
        return Some(Spot::Wire);
    }
    if word == b"medium".as_slice() {
        return Some(Spot::Medium);
    }
    None
}

fn shift_spot(words: &mut Words) -> Result<Spot, ScriptKind>
    ensures { Reads (shift_spot words.old) result words.new }
{
    match wire_or_medium(words.word()?) {
        Some(spot) => Ok(spot),
        None => Err(ScriptKind::UnknownWord),
    }
}

/// `host`, `wire` or `medium`
fn any_spot(word: &[u8]) -> Option<Spot>
    ensures { result ≡ any_spot_in word.now }
{
    if word == b"host".as_slice() {
        return Some(Spot::Host);
    }
    wire_or_medium(word)
}

fn flip_spot(words: &mut Words) -> Result<Spot, ScriptKind>
    ensures { Reads (flip_spot words.old) result words.new }
{
    match any_spot(words.word()?) {
        Some(spot) => Ok(spot),
        None => Err(ScriptKind::UnknownWord),
    }
}

/// `OFF HEX`, to the end of the line: the offset lies in a frame of blocks of this size.
#[tactic(auto, unfolding(crate::specs::Forms::flip_form))]
pub(crate) fn flip(words: &mut Words, size: u32) -> Result<(u32, ShortBytes), ScriptKind>
    requires { size ≤ LARGEST_BLOCK }
    ensures { result ≡ flip_form size words.old }
{
    let off = words.small(0, size + 7)?;
    let bytes = words.short_hex()?;
    words.end()?;
    Ok((off, bytes))
}

/// `fault OP K WHERE flip OFF HEX`
#[tactic(auto, unfolding(crate::specs::Forms::fault_form))]
pub(crate) fn fault_line(words: &mut Words, size: u32) -> Result<ScriptLine, ScriptKind>
    requires { size ≤ LARGEST_BLOCK }
    ensures value { result ≡ fault_form size words.old }
    ensures sound { IfOk result IsSound }
{
    let op = words.small(1, 1024)?;
    let k = words.small(0, 2047)?;
    let spot = flip_spot(words)?;
    words.fixed(b"flip")?;
    let (off, bytes) = flip(words, size)?;
    Ok(ScriptLine::Flip {
        op,
        k,
        spot,
        off,
        bytes,
    })
}

fn distance(words: &mut Words) -> Result<i64, ScriptKind>
    ensures { Reads (value (signed_within 64) words.old) result words.new }
{
    match signed_within(words.word()?, 64) {
        Some(by) => Ok(by),
        None => Err(ScriptKind::BadNumber),
    }
}

/// `shift OP WHERE N`
#[tactic(auto, unfolding(crate::specs::Forms::shift_form))]
pub(crate) fn shift_line(words: &mut Words) -> Result<ScriptLine, ScriptKind>
    ensures value { result ≡ shift_form words.old }
    ensures sound { IfOk result IsSound }
{
    let op = words.small(1, 1024)?;
    let spot = shift_spot(words)?;
    let by = distance(words)?;
    words.end()?;
    Ok(ScriptLine::Shift { op, spot, by })
}

/// `lose OP K`
#[tactic(auto, unfolding(crate::specs::Forms::lose_form))]
pub(crate) fn lose_line(words: &mut Words) -> Result<ScriptLine, ScriptKind>
    ensures value { result ≡ lose_form words.old }
    ensures sound { IfOk result IsSound }
{
    let op = words.small(1, 1024)?;
    let k = words.small(0, 2047)?;
    words.end()?;
    Ok(ScriptLine::Keep { op, k, bytes: 0 })
}

/// `tear OP K LEN`
#[tactic(auto, unfolding(crate::specs::Forms::tear_form))]
pub(crate) fn tear_line(words: &mut Words, size: u32) -> Result<ScriptLine, ScriptKind>
    requires { size ≤ LARGEST_BLOCK }
    ensures value { result ≡ tear_form size words.old }
    ensures sound { IfOk result IsSound }
{
    let op = words.small(1, 1024)?;
    let k = words.small(0, 2047)?;
    let bytes = words.small(1, size + 7)?;
    words.end()?;
    Ok(ScriptLine::Keep { op, k, bytes })
}

/// `fail OP K`
#[tactic(auto, unfolding(crate::specs::Forms::fail_form))]
pub(crate) fn fail_line(words: &mut Words) -> Result<ScriptLine, ScriptKind>
    ensures value { result ≡ fail_form words.old }
    ensures sound { IfOk result IsSound }
{
    let op = words.small(1, 1024)?;
    let k = words.small(0, 2047)?;
    words.end()?;
    Ok(ScriptLine::Fail { op, k })
}

impl Listed for (u32, u32) {
    ghost use Rattle.script_words.specs.Places.{choice_in};

    ghost reads = { choice_in };

    /// An entry of a schedule.
    fn read(word: &[u8]) -> Option<(u32, u32)> {
        choice(word)
    }
}

/// `schedule E ..`
#[tactic(auto, unfolding(crate::specs::Forms::schedule_form))]
pub(crate) fn schedule_line(alloc: Global, words: &mut Words) -> Result<ScriptLine, ScriptKind>
    ensures value { IsUnless (schedule_form words.old) result }
    ensures sound { IfOk result IsSound }
{
    let entries = some::<(u32, u32)>(alloc, words)?;
    Ok(ScriptLine::Schedule(WordList::from_vec(entries)))
}
