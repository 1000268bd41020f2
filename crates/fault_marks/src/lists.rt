//! What is said of a list of commands with a fault.

ghost use Rattle.std.specs.Prelude.{◌≡◌, ◌+◌, ◌≤◌, ◌++◌, IfOk, OnOk, Some, length};
ghost use Rattle.fault_marks.specs.Lists.{bad_word, behind_device, device_word, form_sentence, list_column, list_line, list_marked, list_sentence, list_text, list_word};
ghost use Rattle.fault_marks.specs.Words.{line_at};
ghost use Rattle.script_words.specs.Cuts.{words_of};
ghost use Rattle.script_words.specs.Places.{word32};

use crate::lines::line_at;
use crate::marks::{behind_last, caret_lines, first_foreign, word_begin};
use crate::sentences::sentence;
use crate::texts::fault_line;
use crate::words::spans_of;
use dix_base::LONGEST_LINE;
use script_lines::Words;
use script_text::{ScriptFault, ScriptKind};
use script_words::{number_within, short_hex};
use std::alloc::{AllocError, Global};

fn word32(word: &[u8]) -> Option<u32>
    ensures { result ≡ word32 word.now }
{
    let value = number_within(word, 0, 0xffff_ffff)?;
    Some(value as u32)
}

/// The word that isn't of its form, of a line whose device is one.
fn behind_device(words: &mut Words) -> usize
    ensures { result ≡ behind_device words.old }
{
    match words.next() {
        None => 1,
        Some(cdb) => match short_hex(cdb) {
            None => 2,
            Some(_) => 3,
        },
    }
}

/// The word that isn't of its form, of the words from the device on.
fn device_word(device: &[u8], words: &mut Words) -> usize
    ensures { result ≡ device_word (word32 device.now) words.old }
{
    match word32(device) {
        None => 1,
        Some(_) => behind_device(words),
    }
}

/// The first word of a line that isn't of its form, counted from 0.
fn bad_word(line: &[u8]) -> usize
    ensures { result ≡ bad_word (words_of line.now) }
{
    let mut words = Words::of(line);
    if words.next().is_none() {
        return 1;
    }
    match words.next() {
        None => 1,
        Some(device) => device_word(device, &mut words),
    }
}

/// The word that a fault of this kind is about.
fn list_word(kind: ScriptKind, line: &[u8]) -> usize
    ensures { result ≡ list_word kind (words_of line.now) }
{
    match kind {
        ScriptKind::BadNumber => bad_word(line),
        _ => 0,
    }
}

/// How many bytes of the line stand before the caret.
fn list_column(alloc: Global, kind: ScriptKind, line: &[u8]) -> Result<usize, AllocError>
    requires { length line.now ≤ LONGEST_LINE }
    ensures { IfOk result (λ c. c ≡ list_column kind line.now) }
{
    match kind {
        ScriptKind::NotAscii => Ok(first_foreign(line)),
        ScriptKind::MissingWord => behind_last(alloc, line),
        _ => Ok(word_begin(&spans_of(alloc, line)?, list_word(kind, line))),
    }
}

/// What is wrong with the word of this number.
fn form_sentence(word: usize) -> &'static [u8]
    ensures { result.now ≡ form_sentence word }
{
    if word == 1 {
        return b"DEV is a number from 0 to 4294967295";
    }
    if word == 2 {
        return b"CDB is 1 to 32 bytes in hexadecimal digits";
    }
    b"OUT is bytes in hexadecimal digits, or - for none"
}

fn list_sentence(kind: ScriptKind, word: usize) -> &'static [u8]
    ensures { result.now ≡ list_sentence kind word }
{
    match kind {
        ScriptKind::UnknownWord => b"a line of a list begins with v",
        ScriptKind::MissingWord => b"a word is missing here: a line is v DEV CDB OUT",
        ScriptKind::BadNumber => form_sentence(word),
        _ => sentence(kind),
    }
}

/// The line with the caret under it; nothing where it is too long.
fn list_line(alloc: Global, kind: ScriptKind, line: &[u8]) -> Result<Vec<u8>, AllocError>
    ensures { IfOk result (λ v. v.items ≡ list_line kind line.now) }
{
    if line.len() > LONGEST_LINE {
        return Ok(Vec::new(alloc));
    }
    let column = list_column(alloc, kind, line)?;
    caret_lines(alloc, column, line)
}

/// Puts the line with a caret, and the sentence, behind the text.
fn add_line(
    alloc: Global,
    out: &mut Vec<u8>,
    kind: ScriptKind,
    line: &[u8],
) -> Result<(), AllocError>
    ensures { OnOk result (out.new.items ≡ out.old.items ++ list_marked kind (Some line.now)) }
{
    let marked = list_line(alloc, kind, line)?;
    out.extend_from_slice(&marked)?;
    out.extend_from_slice(list_sentence(kind, list_word(kind, line)))?;
    out.extend_from_slice(b"\n")
}

fn add_marked(
    alloc: Global,
    out: &mut Vec<u8>,
    text: &[u8],
    fault: ScriptFault,
) -> Result<(), AllocError>
    ensures { OnOk result (out.new.items ≡ out.old.items ++ list_marked fault.kind (line_at fault.line text.now)) }
{
    match line_at(text, fault.line) {
        Some(line) => add_line(alloc, out, fault.kind, line),
        None => {
            out.extend_from_slice(list_sentence(fault.kind, 0))?;
            out.extend_from_slice(b"\n")
        }
    }
}

/// What is said of the fault of a list of commands: its line, number and name, the line itself with a caret under
/// what is wrong, and a sentence. The line is left out where it has more than 4,096 bytes.
pub fn list_text(alloc: Global, text: &[u8], fault: ScriptFault) -> Result<Vec<u8>, AllocError>
    ensures { IfOk result (λ v. v.items ≡ list_text text.now fault) }
{
    let mut out = fault_line(alloc, fault)?;
    add_marked(alloc, &mut out, text, fault)?;
    Ok(out)
}
