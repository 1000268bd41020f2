//! The lines of ops.

ghost use Rattle.std.specs.Prelude.{◌≡◌, ◌≤◌};
ghost use Rattle.script_lines.specs.Forms.{app_form, change_form, fill_form, overwrite_form, put_form, read_form, readpi_form, seal_form, show_form, write_form, writepi_form};
ghost use Rattle.script_lines.specs.Reading.{IsUnless, ended};
ghost use Rattle.script_lines.specs.declared.line.OpLine.{OpLine};
ghost use Rattle.pi_tuple.specs.declared.TheConstants.{LARGEST_BLOCK};

use crate::fault_lines::flip;
use crate::line::OpLine;
use crate::{ScriptKind, Words};
use std::alloc::Global;

/// `fill P:O:L BYTE`
#[tactic(auto, unfolding(crate::specs::Forms::fill_form))]
pub(crate) fn fill_line(words: &mut Words) -> Result<OpLine, ScriptKind>
    ensures { result ≡ fill_form words.old }
{
    let seg = words.segment()?;
    let byte = words.byte()?;
    words.end()?;
    Ok(OpLine::Fill { seg, byte })
}

/// `put P:O HEX`
#[tactic(auto, unfolding(crate::specs::Forms::put_form))]
pub(crate) fn put_line(alloc: Global, words: &mut Words) -> Result<OpLine, ScriptKind>
    ensures { IsUnless (put_form words.old) result }
{
    let (page, off) = words.spot()?;
    let bytes = words.hex(alloc)?;
    words.end()?;
    Ok(OpLine::Put { page, off, bytes })
}

/// `show P:O:L`
#[tactic(auto, unfolding(crate::specs::Forms::show_form))]
pub(crate) fn show_line(words: &mut Words) -> Result<OpLine, ScriptKind>
    ensures { result ≡ show_form words.old }
{
    let seg = words.segment()?;
    words.end()?;
    Ok(OpLine::Show { seg })
}

/// `seal N DATA TUPLES TAG LONGTAG`
#[tactic(auto, unfolding(crate::specs::Forms::seal_form))]
pub(crate) fn seal_line(alloc: Global, words: &mut Words) -> Result<OpLine, ScriptKind>
    ensures { IsUnless (seal_form words.old) result }
{
    let n = words.word32()?;
    let body = words.segments(alloc)?;
    let tuples = words.segments(alloc)?;
    let app = words.tag()?;
    let rtag = words.long_tag()?;
    words.end()?;
    Ok(OpLine::Seal {
        n,
        body,
        tuples,
        app,
        rtag,
    })
}

/// What may stand behind the data of a `write`: `app TAG`.
#[tactic(auto, unfolding(crate::specs::Forms::app_form))]
fn app_tag(words: &mut Words) -> Result<Option<u16>, ScriptKind>
    ensures { result ≡ app_form words.old }
{
    match words.next() {
        None => Ok(None),
        Some(word) => {
            if word != b"app".as_slice() {
                return Err(ScriptKind::UnknownWord);
            }
            let app = words.tag()?;
            words.end()?;
            Ok(Some(app))
        }
    }
}

/// `write V N DATA` or `write V N DATA app TAG`
#[tactic(auto, unfolding(crate::specs::Forms::write_form))]
pub(crate) fn write_line(alloc: Global, words: &mut Words) -> Result<OpLine, ScriptKind>
    ensures { IsUnless (write_form words.old) result }
{
    let v = words.word64()?;
    let n = words.word32()?;
    let body = words.segments(alloc)?;
    let app = app_tag(words)?;
    Ok(OpLine::Write { v, n, body, app })
}

/// `read V N DATA`
#[tactic(auto, unfolding(crate::specs::Forms::read_form))]
pub(crate) fn read_line(alloc: Global, words: &mut Words) -> Result<OpLine, ScriptKind>
    ensures { IsUnless (read_form words.old) result }
{
    let v = words.word64()?;
    let n = words.word32()?;
    let body = words.segments(alloc)?;
    words.end()?;
    Ok(OpLine::Read { v, n, body })
}

/// `writepi V N DATA TUPLES`
#[tactic(auto, unfolding(crate::specs::Forms::writepi_form))]
pub(crate) fn writepi_line(alloc: Global, words: &mut Words) -> Result<OpLine, ScriptKind>
    ensures { IsUnless (writepi_form words.old) result }
{
    let v = words.word64()?;
    let n = words.word32()?;
    let body = words.segments(alloc)?;
    let tuples = words.segments(alloc)?;
    words.end()?;
    Ok(OpLine::WritePi { v, n, body, tuples })
}

/// `readpi V N DATA TUPLES`
#[tactic(auto, unfolding(crate::specs::Forms::readpi_form))]
pub(crate) fn readpi_line(alloc: Global, words: &mut Words) -> Result<OpLine, ScriptKind>
    ensures { IsUnless (readpi_form words.old) result }
{
    let v = words.word64()?;
    let n = words.word32()?;
    let body = words.segments(alloc)?;
    let tuples = words.segments(alloc)?;
    words.end()?;
    Ok(OpLine::ReadPi { v, n, body, tuples })
}

/// `flip OFF HEX` or `from DEV LBA`, behind the word that says which
#[tactic(auto, unfolding(crate::specs::Forms::change_form))]
fn change(
    words: &mut Words,
    size: u32,
    dev: u32,
    lba: u64,
    is_flip: bool,
) -> Result<OpLine, ScriptKind>
    requires { size ≤ LARGEST_BLOCK }
    ensures { result ≡ change_form size dev lba is_flip words.old }
{
    if is_flip {
        let (off, bytes) = flip(words, size)?;
        return Ok(OpLine::Flip {
            dev,
            lba,
            off,
            bytes,
        });
    }
    let from_dev = words.word32()?;
    let from_lba = words.word64()?;
    words.end()?;
    Ok(OpLine::Copy {
        dev,
        lba,
        from_dev,
        from_lba,
    })
}

/// `overwrite DEV LBA flip OFF HEX` or `overwrite DEV LBA from DEV LBA`
#[tactic(auto, unfolding(crate::specs::Forms::overwrite_form))]
pub(crate) fn overwrite_line(words: &mut Words, size: u32) -> Result<OpLine, ScriptKind>
    requires { size ≤ LARGEST_BLOCK }
    ensures { result ≡ overwrite_form size words.old }
{
    let dev = words.word32()?;
    let lba = words.word64()?;
    let is_flip = words.either(b"flip", b"from")?;
    change(words, size, dev, lba, is_flip)
}

/// `wait`
pub(crate) fn wait_line(words: &mut Words) -> Result<OpLine, ScriptKind>
    ensures { result ≡ ended OpLine.Wait words.old }
{
    words.end()?;
    Ok(OpLine::Wait)
}
