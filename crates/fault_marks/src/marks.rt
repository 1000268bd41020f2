//! Where in a text a fault is.

ghost use Rattle.std.specs.Prelude.{◌≡◌, ◌+◌, ◌-◌, ◌<◌, ◌≤◌, ◌++◌, IfOk, OnOk, length, map, replicate, take, Some};
ghost use Rattle.std.specs.List.{position};
ghost use Rattle.fault_marks.specs.Marks.{caret_lines, column, is_fault, is_foreign, last_end, line_begin, line_marked, or_first, or_zero, shown_byte, two_lines, under_word, word_at_fault, word_begin, word_marked};
ghost use Rattle.fault_marks.specs.Texts.{marked_text};
ghost use Rattle.fault_marks.specs.Words.{line_at, spans_of};
ghost use Rattle.script_text.specs.Language.{script_in};

use crate::closer::closer_of;
use crate::detail::add_detail;
use crate::lines::{line_at, text_behind};
use crate::texts::fault_line;
use crate::words::{Span, first_begin, last_end, spans_of};
use dix_base::LONGEST_LINE;
use script_text::{ScriptFault, ScriptKind, read_script};
use std::alloc::{AllocError, Global};

/// The text up to so many bytes behind a place; all of it, where it has no more.
fn beginning(text: &[u8], begin: usize, len: usize) -> &[u8]
    requires { begin ≤ length text.now }
    ensures { result.now ≡ take (begin + len) text.now }
{
    if len < text.len() - begin {
        &text[..begin + len]
    } else {
        text
    }
}

/// Whether a text has this very fault.
fn has_fault(alloc: Global, text: &[u8], fault: ScriptFault) -> Result<bool, AllocError>
    ensures { IfOk result (λ b. b ≡ is_fault fault (script_in text.now)) }
{
    match read_script(alloc, text) {
        Ok(_) => Ok(false),
        Err(
            ScriptFault {
                line: _,
                kind: ScriptKind::Memory,
            },
        ) => Err(AllocError),
        Err(other) => Ok(fault.line == other.line && fault.kind.number() == other.kind.number()),
    }
}

/// Where the word at fault begins: the last of the shortest beginning of the text that ends behind a word
/// of this line and has this very fault.
fn word_at_fault(
    alloc: Global,
    fault: ScriptFault,
    text: &[u8],
    begin: usize,
    words: &[Span],
) -> Result<Option<usize>, AllocError>
    requires { begin ≤ length text.now }
    ensures { IfOk result (λ r. r ≡ word_at_fault fault text.now begin words.now) }
{
    for word in words {
        if has_fault(alloc, beginning(text, begin, word.end), fault)? {
            return Ok(Some(word.begin));
        }
    }
    Ok(None)
}

/// The place of the word at fault.
fn under_word(
    alloc: Global,
    fault: ScriptFault,
    text: &[u8],
    line: &[u8],
) -> Result<usize, AllocError>
    requires { 0 < fault.line }
    ensures { IfOk result (λ c. c ≡ under_word fault text.now line.now) }
{
    let words = spans_of(alloc, line)?;
    let begin = text.len() - text_behind(text, fault.line - 1).len();
    match word_at_fault(alloc, fault, text, begin, &words)? {
        Some(place) => Ok(place),
        None => Ok(first_begin(&words)),
    }
}

/// The place two behind the last of the line's words.
fn two_behind(words: &[Span], line: &[u8]) -> usize
    requires words { words.now ≡ spans_of line.now }
    requires short { length line.now ≤ LONGEST_LINE }
    ensures { result ≡ last_end words.now + 1 }
{
    let _line = line;
    let end = last_end(words);
    end + 1
}

/// The place two behind the last word.
pub(crate) fn behind_last(alloc: Global, line: &[u8]) -> Result<usize, AllocError>
    requires { length line.now ≤ LONGEST_LINE }
    ensures { IfOk result (λ c. c ≡ last_end (spans_of line.now) + 1) }
{
    let words = spans_of(alloc, line)?;
    Ok(two_behind(&words, line))
}

/// Where the word of this number begins, counted from 0.
pub(crate) fn word_begin(words: &[Span], word: usize) -> usize
    ensures { result ≡ word_begin word words.now }
{
    match words.get(word) {
        Some(span) => span.begin,
        None => first_begin(words),
    }
}

/// How many bytes of the line stand before the caret, which may be under the word of this number.
fn column(
    alloc: Global,
    fault: ScriptFault,
    word: usize,
    text: &[u8],
    line: &[u8],
) -> Result<usize, AllocError>
    requires line { 0 < fault.line }
    requires short { length line.now ≤ LONGEST_LINE }
    ensures { IfOk result (λ c. c ≡ column fault.kind word fault text.now line.now) }
{
    match fault.kind {
        ScriptKind::NotAscii => Ok(first_foreign(line)),
        ScriptKind::UnknownWord | ScriptKind::BadNumber | ScriptKind::ExtraWord => {
            under_word(alloc, fault, text, line)
        }
        ScriptKind::MissingWord => behind_last(alloc, line),
        _ => Ok(word_begin(&spans_of(alloc, line)?, word)),
    }
}

/// Whether a script may not have this byte.
fn is_foreign(byte: u8) -> bool
    ensures { result ≡ is_foreign byte }
{
    !(0x20 <= byte && byte <= 0x7e)
}

fn place_of_foreign(line: &[u8]) -> Option<usize>
    ensures { result ≡ position is_foreign line.now }
{
    line.iter().position(|b| is_foreign(*b))
}

/// The place of the first byte that a script may not have.
pub(crate) fn first_foreign(line: &[u8]) -> usize
    ensures { result ≡ or_zero (position is_foreign line.now) }
{
    match place_of_foreign(line) {
        Some(place) => place,
        None => 0,
    }
}

/// The byte, or a question mark in place of one that a script may not have.
fn shown_byte(byte: u8) -> u8
    ensures { result ≡ shown_byte byte }
{
    if is_foreign(byte) { b'?' } else { byte }
}

/// Puts a line behind the text, as it is shown.
fn add_shown(out: &mut Vec<u8>, line: &[u8]) -> Result<(), AllocError>
    ensures { OnOk result (out.new.items ≡ out.old.items ++ map shown_byte line.now) }
{
    for byte in line {
        out.push(shown_byte(*byte))?;
    }
    Ok(())
}

/// Puts so many spaces behind the text.
fn add_spaces(out: &mut Vec<u8>, count: usize) -> Result<(), AllocError>
    ensures { OnOk result (out.new.items ≡ out.old.items ++ replicate count 32) }
{
    let mut left = count;
    while left > 0 {
        out.push(b' ')?;
        left -= 1;
    }
    Ok(())
}

/// The line, and a caret under it behind so many bytes.
pub(crate) fn caret_lines(alloc: Global, column: usize, line: &[u8]) -> Result<Vec<u8>, AllocError>
    ensures { IfOk result (λ v. v.items ≡ caret_lines column line.now) }
{
    let mut out = Vec::new(alloc);
    add_shown(&mut out, line)?;
    out.extend_from_slice(b"\n")?;
    add_spaces(&mut out, column)?;
    out.extend_from_slice(b"^\n")?;
    Ok(out)
}

/// The line with a caret under the word of this number; nothing where it is too long.
pub(crate) fn word_marked(alloc: Global, word: usize, line: &[u8]) -> Result<Vec<u8>, AllocError>
    ensures { IfOk result (λ v. v.items ≡ word_marked word line.now) }
{
    if line.len() > LONGEST_LINE {
        return Ok(Vec::new(alloc));
    }
    let column = word_begin(&spans_of(alloc, line)?, word);
    caret_lines(alloc, column, line)
}

/// The line, and the caret under it.
fn two_lines(
    alloc: Global,
    fault: ScriptFault,
    word: usize,
    text: &[u8],
    line: &[u8],
) -> Result<Vec<u8>, AllocError>
    requires line { 0 < fault.line }
    requires short { length line.now ≤ LONGEST_LINE }
    ensures { IfOk result (λ v. v.items ≡ two_lines word fault text.now line.now) }
{
    let spaces = column(alloc, fault, word, text, line)?;
    caret_lines(alloc, spaces, line)
}

/// The line of the fault and the caret under it; nothing where the text hasn't the line, or it is too long.
fn line_marked(
    alloc: Global,
    fault: ScriptFault,
    word: usize,
    text: &[u8],
) -> Result<Vec<u8>, AllocError>
    ensures { IfOk result (λ v. v.items ≡ line_marked word fault text.now (line_at fault.line text.now)) }
{
    match line_at(text, fault.line) {
        None => Ok(Vec::new(alloc)),
        Some(line) => {
            if line.len() > LONGEST_LINE {
                return Ok(Vec::new(alloc));
            }
            two_lines(alloc, fault, word, text, line)
        }
    }
}

/// What is said of the fault of a text: its line, number and name, the line itself with a caret under what
/// is wrong, and a sentence. The line is left out where the text has no such line or it has more than
/// 4,096 bytes.
pub fn marked_text(alloc: Global, text: &[u8], fault: ScriptFault) -> Result<Vec<u8>, AllocError>
    ensures { IfOk result (λ v. v.items ≡ marked_text text.now fault) }
{
    let found = closer_of(alloc, text, fault)?;
    let line = line_marked(alloc, fault, found.word, text)?;
    let mut out = fault_line(alloc, fault)?;
    out.extend_from_slice(&line)?;
    add_detail(&mut out, fault.kind, found.detail)?;
    out.extend_from_slice(b"\n")?;
    Ok(out)
}
