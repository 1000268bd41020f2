//! A text of lines.

ghost use Rattle.std.specs.Prelude.{◌≡◌, ◌⊎◌, IfErr, IfOk};
ghost use Rattle.script_lines.specs.declared.kind.ScriptKind.{ScriptKind};
ghost use Rattle.script_words.specs.Cuts.{lines_of, words_of};
ghost use Rattle.nvme_command.specs.Texts.{Takes, is_comment, lines_read, text_in, text_taken, words_taken};

use crate::line::{NvmLine, line_of};
use dix_base::{LONGEST_LINE, MOST_BYTES};
use script_lines::{ScriptKind, Words};
use script_text::ScriptFault;
use script_words::{is_plain, next_line, next_word};
use std::alloc::Global;

/// A text has at most this many lines with words.
const MOST_LINES: usize = 1024;

/// Whether a line with this first word is skipped.
fn is_comment(first: &[u8]) -> bool
    ensures { result ≡ is_comment first.now }
{
    match first {
        [] => false,
        [byte, ..] => *byte == b'#',
    }
}

/// Takes the words of a line.
fn take_words(
    alloc: Global,
    lines: &mut Vec<NvmLine>,
    number: u32,
    line: &[u8],
) -> Result<(), ScriptKind>
    ensures { Takes (words_taken number (words_of line.now) lines.old.items) result lines.new.items }
{
    match next_word(line) {
        None => return Ok(()),
        Some((first, _)) => {
            if is_comment(first) {
                return Ok(());
            }
        }
    }
    let line = line_of(alloc, number, &mut Words::of(line))?;
    if lines.len() >= MOST_LINES {
        return Err(ScriptKind::TooMany);
    }
    match lines.push(line) {
        Ok(()) => Ok(()),
        Err(_) => Err(ScriptKind::Memory),
    }
}

fn take_text(
    alloc: Global,
    lines: &mut Vec<NvmLine>,
    number: u32,
    line: &[u8],
) -> Result<(), ScriptKind>
    ensures { Takes (text_taken number line.now lines.old.items) result lines.new.items }
{
    if !is_plain(line) {
        return Err(ScriptKind::NotAscii);
    }
    if line.len() > LONGEST_LINE {
        return Err(ScriptKind::LongLine);
    }
    take_words(alloc, lines, number, line)
}

/// The lines of a text, in order, or its first fault.
///
/// Lines are numbered from 1; one without words, or whose first word begins with `#`, is skipped.
/// `NotAscii` is a byte outside space to tilde, `LongLine` more than 4,096 bytes, both also on a line
/// that is skipped; then the words from left to right are `MissingWord`, `BadNumber` or, behind the
/// third, `ExtraWord`; and the 1,025th line with words is `TooMany`. A text of more than 4,194,304
/// bytes is `TooMany` at line 0. `Memory`, at any line, is want of memory.
pub fn read_lines(alloc: Global, text: &[u8]) -> Result<Vec<NvmLine>, ScriptFault>
    ensures lines { IfOk result (λ v. text_in text.now ≡ Ok v.items) }
    ensures fault { IfErr result (λ f. (f.kind ≡ ScriptKind.Memory) ⊎ (text_in text.now ≡ Err f)) }
{
    if text.len() > MOST_BYTES {
        return Err(ScriptFault {
            line: 0,
            kind: ScriptKind::TooMany,
        });
    }
    let mut lines = Vec::new(alloc);
    let mut number = 1u32;
    let mut rest = text;
    while let Some((first, behind)) = next_line(rest) {
        if let Err(kind) = take_text(alloc, &mut lines, number, first) {
            return Err(ScriptFault { line: number, kind });
        }
        number += 1;
        rest = behind;
    }
    Ok(lines)
}
