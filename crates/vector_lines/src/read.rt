//! A text of lines.

ghost use Rattle.std.specs.Prelude.{◌≡◌, ◌+◌, ◌≤◌, ◌⊎◌, [], length, IfErr, IfOk, Ok, Err};
ghost use Rattle.script_lines.specs.declared.kind.ScriptKind.{ScriptKind};
ghost use Rattle.script_words.specs.Cuts.{lines_of, words_of};
ghost use Rattle.vector_lines.specs.Texts.{Takes, head_read, is_head, is_list, is_skipped, lines_read, list_in, text_taken, words_taken};

use crate::line::{VectorLine, line_of};
use dix_base::MOST_BYTES;
use script_lines::{ScriptKind, Words};
use script_text::ScriptFault;
use script_words::{is_plain, next_line, next_word};
use std::alloc::Global;

/// Whether a line is skipped: it has no words, or its first begins with `#`.
fn is_skipped(line: &[u8]) -> bool
    ensures { result ≡ is_skipped (words_of line.now) }
{
    match next_word(line) {
        None => true,
        Some((first, _)) => match first {
            [] => false,
            [byte, ..] => *byte == b'#',
        },
    }
}

/// Whether the words of a line are those of the first line of a list.
fn is_head(line: &[u8]) -> bool
    ensures { result ≡ is_head (words_of line.now) }
{
    let Some((first, behind)) = next_word(line) else {
        return false;
    };
    let Some((second, more)) = next_word(behind) else {
        return false;
    };
    let Some((third, rest)) = next_word(more) else {
        return false;
    };
    match next_word(rest) {
        Some(_) => false,
        None => first == b"dix".as_slice()
            && second == b"vectors".as_slice()
            && third == b"1".as_slice(),
    }
}

/// Whether the text is a list: its first line that isn't skipped is `dix vectors 1`.
pub fn is_list(text: &[u8]) -> bool
    ensures { result ≡ is_list (lines_of text.now) }
{
    let mut rest = text;
    while let Some((line, behind)) = next_line(rest) {
        if !is_skipped(line) {
            return is_head(line);
        }
        rest = behind;
    }
    false
}

/// The number of the line behind the first line of a list, and what stands from there on.
fn skip_head(text: &[u8]) -> Result<(u32, &[u8]), ScriptFault>
    requires { length text.now ≤ MOST_BYTES }
    ensures head { IfOk result (λ p. lines_read p.0 (lines_of p.1.now) [] ≡ head_read 1 (lines_of text.now)) }
    ensures few { IfOk result (λ p. p.0 + length p.1.now ≤ 4194305) }
    ensures fault { IfErr result (λ f. head_read 1 (lines_of text.now) ≡ Err f) }
{
    let mut number = 1u32;
    let mut rest = text;
    while let Some((line, behind)) = next_line(rest) {
        if !is_plain(line) {
            return Err(ScriptFault {
                line: number,
                kind: ScriptKind::NotAscii,
            });
        }
        if !is_skipped(line) {
            if is_head(line) {
                return Ok((number + 1, behind));
            }
            return Err(ScriptFault {
                line: number,
                kind: ScriptKind::NoHeader,
            });
        }
        number += 1;
        rest = behind;
    }
    Ok((number, rest))
}

/// Takes the words of a line.
fn take_words(
    alloc: Global,
    lines: &mut Vec<VectorLine>,
    number: u32,
    line: &[u8],
) -> Result<(), ScriptKind>
    ensures { Takes (words_taken number (words_of line.now) lines.old.items) result lines.new.items }
{
    if is_skipped(line) {
        return Ok(());
    }
    let line = line_of(alloc, number, &mut Words::of(line))?;
    match lines.push(line) {
        Ok(()) => Ok(()),
        Err(_) => Err(ScriptKind::Memory),
    }
}

fn take_text(
    alloc: Global,
    lines: &mut Vec<VectorLine>,
    number: u32,
    line: &[u8],
) -> Result<(), ScriptKind>
    ensures { Takes (text_taken number line.now lines.old.items) result lines.new.items }
{
    if !is_plain(line) {
        return Err(ScriptKind::NotAscii);
    }
    take_words(alloc, lines, number, line)
}

/// The commands of the lines from this number on.
fn take_lines(alloc: Global, first: u32, text: &[u8]) -> Result<Vec<VectorLine>, ScriptFault>
    requires { first + length text.now ≤ 4194305 }
    ensures lines { IfOk result (λ v. lines_read first (lines_of text.now) [] ≡ Ok v.items) }
    ensures fault { IfErr result (λ f. (f.kind ≡ ScriptKind.Memory) ⊎ (lines_read first (lines_of text.now) [] ≡ Err f)) }
{
    let mut lines = Vec::new(alloc);
    let mut number = first;
    let mut rest = text;
    while let Some((line, behind)) = next_line(rest) {
        if let Err(kind) = take_text(alloc, &mut lines, number, line) {
            return Err(ScriptFault { line: number, kind });
        }
        number += 1;
        rest = behind;
    }
    Ok(lines)
}

/// The commands of a list, in order, or its first fault.
///
/// Lines are numbered from 1; one without words, or whose first word begins with `#`, is skipped. `NotAscii`
/// is a byte outside space to tilde, also on a line that is skipped; `NoHeader` is another first line than
/// `dix vectors 1`; behind it `UnknownWord` is a line that doesn't begin with `v`, and then the words from left
/// to right are `MissingWord` or `BadNumber`. A text of more than 4,194,304 bytes is `TooMany` at line 0. A line
/// may be as long as the text. `Memory`, at any line, is want of memory.
pub fn read_list(alloc: Global, text: &[u8]) -> Result<Vec<VectorLine>, ScriptFault>
    ensures lines { IfOk result (λ v. list_in text.now ≡ Ok v.items) }
    ensures fault { IfErr result (λ f. (f.kind ≡ ScriptKind.Memory) ⊎ (list_in text.now ≡ Err f)) }
{
    if text.len() > MOST_BYTES {
        return Err(ScriptFault {
            line: 0,
            kind: ScriptKind::TooMany,
        });
    }
    let (number, rest) = skip_head(text)?;
    take_lines(alloc, number, rest)
}
