//! The reader.

ghost use Rattle.std.specs.Prelude.{◌≡◌, ◌∷◌};
ghost use Rattle.script_lines.specs.Verbs.{verb_of};
ghost use Rattle.script_text.specs.Drafts.{drafted};
ghost use Rattle.script_text.specs.Language.{Answers, Takes, at_end, end_fault, header_taken, is_behind, is_comment, line_taken, script_in, text_taken, verb_taken, version_in, version_of, words_taken};
ghost use Rattle.script_text.specs.Rules.{broken_rule};

use crate::draft::Draft;
use crate::rules::{is_bad_fault, is_too_many, lacks_integrity};
use crate::{Script, ScriptFault, ScriptKind};
use dix_base::{LONGEST_LINE, MOST_BYTES};
use script_lines::{ScriptLine, ScriptVersion, Section, Verb, Words, line_of, verb_of};
use script_words::{is_plain, next_line};
use std::alloc::Global;

/// The first rule that a line breaks, of those that ask nothing of its segments.
fn broken_rule(draft: &Draft, line: &ScriptLine) -> Option<ScriptKind>
    ensures { result ≡ broken_rule (drafted draft.now) line.now }
{
    if lacks_integrity(draft, line) {
        return Some(ScriptKind::NoIntegrity);
    }
    if is_too_many(draft, line) {
        return Some(ScriptKind::TooMany);
    }
    if is_bad_fault(draft, line) {
        return Some(ScriptKind::BadFault);
    }
    None
}

/// Whether a line of this verb may stand behind the last.
fn is_in_order(draft: &Draft, verb: Verb) -> bool
    ensures { result ≡ is_behind draft.now.version verb draft.now.section }
{
    match draft.section {
        None => false,
        Some(section) => {
            draft.version.has_lines_of(verb.version())
                && section.comes_before(verb.section(), draft.version.is_new())
        }
    }
}

fn version_in(word: &[u8]) -> Option<ScriptVersion>
    ensures { result ≡ version_in word.now }
{
    if word == b"1".as_slice() {
        return Some(ScriptVersion::One);
    }
    if word == b"2".as_slice() {
        return Some(ScriptVersion::Two);
    }
    if word == b"3".as_slice() {
        return Some(ScriptVersion::Three);
    }
    None
}

/// The version of the first line that isn't skipped: `dix 1`, `dix 2` or `dix 3`.
fn version_of(first: &[u8], words: &mut Words) -> Option<ScriptVersion>
    ensures { result ≡ version_of (first.now ∷ words.old) }
{
    let version = words.next()?;
    if words.next().is_some() {
        return None;
    }
    if first != b"dix".as_slice() {
        return None;
    }
    version_in(version)
}

fn take_header(draft: &mut Draft, first: &[u8], words: &mut Words) -> Result<(), ScriptKind>
    ensures { Takes (header_taken (version_of (first.now ∷ words.old)) (drafted draft.old)) result (drafted draft.new) }
{
    match version_of(first, words) {
        Some(version) => {
            draft.version = version;
            draft.section = Some(Section::Dix);
            Ok(())
        }
        None => Err(ScriptKind::NoHeader),
    }
}

/// A line behind the header, whose first word this is.
#[tactic(auto, unfolding(crate::specs::Language::line_taken))]
fn take_line(
    alloc: Global,
    draft: &mut Draft,
    number: u32,
    first: &[u8],
    words: &mut Words,
) -> Result<(), ScriptKind>
    ensures { Takes (verb_taken number (verb_of first.now) words.old (drafted draft.old)) result (drafted draft.new) }
{
    let Some(verb) = verb_of(first) else {
        return Err(ScriptKind::UnknownWord);
    };
    if !is_in_order(draft, verb) {
        return Err(ScriptKind::OutOfPlace);
    }
    let line = line_of(alloc, verb, words, draft.block)?;
    if let Some(kind) = broken_rule(draft, &line) {
        return Err(kind);
    }
    draft.take(alloc, number, line)?;
    draft.section = Some(verb.section());
    Ok(())
}

/// Whether a line with this first word is skipped.
fn is_comment(first: &[u8]) -> bool
    ensures { result ≡ is_comment first.now }
{
    match first {
        [] => false,
        [byte, ..] => *byte == b'#',
    }
}

fn take_text(alloc: Global, draft: &mut Draft, number: u32, line: &[u8]) -> Result<(), ScriptKind>
    ensures { Takes (text_taken number line.now (drafted draft.old)) result (drafted draft.new) }
{
    if !is_plain(line) {
        return Err(ScriptKind::NotAscii);
    }
    if line.len() > LONGEST_LINE {
        return Err(ScriptKind::LongLine);
    }
    let mut words = Words::of(line);
    let Some(first) = words.next() else {
        return Ok(());
    };
    if is_comment(first) {
        return Ok(());
    }
    match draft.section {
        None => take_header(draft, first, &mut words),
        Some(_) => take_line(alloc, draft, number, first, &mut words),
    }
}

/// What is wrong with the end of the text, if anything.
fn end_fault(draft: &Draft) -> Option<ScriptKind>
    ensures { result ≡ end_fault draft.now.section }
{
    match draft.section {
        None => Some(ScriptKind::NoHeader),
        Some(Section::Begin) | Some(Section::Op) => None,
        Some(_) => Some(ScriptKind::OutOfPlace),
    }
}

fn finish(alloc: Global, draft: Draft, line: u32) -> Result<Script, ScriptFault>
    ensures { Answers (at_end line (end_fault draft.section) (drafted draft)) result }
{
    if let Some(kind) = end_fault(&draft) {
        return Err(ScriptFault { line, kind });
    }
    match draft.finish(alloc) {
        Ok(script) => Ok(script),
        Err(kind) => Err(ScriptFault { line, kind }),
    }
}

/// The script of a text, or its first fault. Want of memory is a fault of the kind `Memory`, at any line.
pub fn read_script(alloc: Global, text: &[u8]) -> Result<Script, ScriptFault>
    ensures { Answers (script_in text.now) result }
{
    if text.len() > MOST_BYTES {
        return Err(ScriptFault {
            line: 0,
            kind: ScriptKind::TooMany,
        });
    }
    let mut draft = Draft::new(alloc);
    let mut line = 1u32;
    let mut rest = text;
    while let Some((first, behind)) = next_line(rest) {
        if let Err(kind) = take_text(alloc, &mut draft, line, first) {
            return Err(ScriptFault { line, kind });
        }
        line += 1;
        rest = behind;
    }
    finish(alloc, draft, line)
}
