//! Which of the causes of its kind a fault has, and at which word of its line.

ghost use Rattle.std.specs.Prelude.{◌≡◌, ◌++◌, ◌-◌, ◌<◌, IfOk, Some, codes, length, take};
ghost use Rattle.fault_marks.specs.Closer.{asked_closer, at_word, closer_of, early_closer, line_closer, numbered, order_closer, plain, script_of, settled, verb_closer, words_closer};
ghost use Rattle.fault_marks.specs.Words.{line_at, text_behind};
ghost use Rattle.script_text.specs.Language.{script_in};
ghost use Rattle.script_words.specs.Cuts.{words_of};

use crate::bound::bound_closer;
use crate::detail::Detail;
use crate::lines::{line_at, text_behind};
use crate::order::{line_version, says};
use crate::said::said_closer;
use pi_tuple::LARGEST_BLOCK;
use script_lines::{ScriptVersion, Verb, Words, line_of, verb_of};
use script_text::{Script, ScriptFault, ScriptKind, read_script};
use std::alloc::{AllocError, Global};

/// What is wrong with a line, and the word at which it is, counted from 0.
#[derive(Clone, Copy)]
pub(crate) struct Closer {
    pub(crate) detail: Detail,
    pub(crate) word: usize,
}

/// This, at this word.
pub(crate) fn at_word(detail: Detail, word: usize) -> Closer
    ensures { result ≡ at_word detail word }
{
    Closer { detail, word }
}

/// What the kind says, at the first word.
pub(crate) fn plain() -> Closer
    ensures { result ≡ plain }
{
    at_word(Detail::Plain, 0)
}

/// The script of a text, where it is one.
fn script_of(alloc: Global, text: &[u8]) -> Result<Option<Script>, AllocError>
    ensures { IfOk result (λ r. r ≡ script_of (script_in text.now)) }
{
    match read_script(alloc, text) {
        Ok(script) => Ok(Some(script)),
        Err(
            ScriptFault {
                line: _,
                kind: ScriptKind::Memory,
            },
        ) => Err(AllocError),
        Err(_) => Ok(None),
    }
}

/// The script that lines are with a `begin` behind them.
fn begun(alloc: Global, front: &[u8]) -> Result<Option<Script>, AllocError>
    ensures { IfOk result (λ r. r ≡ script_of (script_in (front.now ++ codes "begin\n"))) }
{
    let mut text = Vec::new(alloc);
    text.extend_from_slice(front)?;
    text.extend_from_slice(b"begin\n")?;
    script_of(alloc, &text)
}

/// The script that the lines before one are, if need be with a `begin` behind them.
pub(crate) fn settled(alloc: Global, front: &[u8]) -> Result<Option<Script>, AllocError>
    ensures { IfOk result (λ r. r ≡ settled front.now) }
{
    match script_of(alloc, front)? {
        Some(script) => Ok(Some(script)),
        None => begun(alloc, front),
    }
}

/// What is wrong with a line of this verb.
fn verb_closer(
    alloc: Global,
    kind: ScriptKind,
    script: &Script,
    verb: Verb,
    words: &mut Words,
) -> Result<Closer, AllocError>
    ensures { IfOk result (λ c. c ≡ verb_closer kind script.now (Some verb) words.old) }
{
    match line_of(alloc, verb, words, LARGEST_BLOCK) {
        Ok(line) => Ok(said_closer(kind, script, &line)),
        Err(ScriptKind::Memory) => Err(AllocError),
        Err(_) => Ok(plain()),
    }
}

/// What is wrong with a line behind those of a script.
fn words_closer(
    alloc: Global,
    kind: ScriptKind,
    script: &Script,
    line: &[u8],
) -> Result<Closer, AllocError>
    ensures { IfOk result (λ c. c ≡ words_closer kind script.now (words_of line.now)) }
{
    let mut words = Words::of(line);
    let Some(first) = words.next() else {
        return Ok(plain());
    };
    match verb_of(first) {
        Some(verb) => verb_closer(alloc, kind, script, verb, &mut words),
        None => Ok(plain()),
    }
}

/// A line that this version brought, in a script of an earlier one.
fn early_closer(text: &[u8], brought: ScriptVersion) -> Closer
    ensures { result ≡ early_closer text.now brought }
{
    match brought {
        ScriptVersion::Two if says(text, b"1") => at_word(Detail::NewLine, 0),
        ScriptVersion::Three if !says(text, b"3") => at_word(Detail::ThirdLine, 0),
        _ => plain(),
    }
}

/// What is wrong with a line that isn't in its place.
fn order_closer(text: &[u8], number: u32) -> Closer
    ensures { result ≡ order_closer text.now (line_at number text.now) }
{
    match line_at(text, number) {
        None => at_word(Detail::NoBegin, 0),
        Some(line) => early_closer(text, line_version(line)),
    }
}

/// What is wrong with the line of this number, behind those before it.
fn line_closer(
    alloc: Global,
    kind: ScriptKind,
    text: &[u8],
    number: u32,
) -> Result<Closer, AllocError>
    requires { 0 < number }
    ensures { IfOk result (λ c. c ≡ line_closer kind (settled (take (length text.now - length (text_behind (number - 1) text.now)) text.now)) (line_at number text.now)) }
{
    let begin = text.len() - text_behind(text, number - 1).len();
    match settled(alloc, &text[..begin])? {
        None => Ok(plain()),
        Some(script) => match line_at(text, number) {
            None => Ok(plain()),
            Some(line) => words_closer(alloc, kind, &script, line),
        },
    }
}

/// What is wrong with a line of a text, or of its script over the volume.
fn asked_closer(alloc: Global, text: &[u8], fault: ScriptFault) -> Result<Closer, AllocError>
    requires { 0 < fault.line }
    ensures { IfOk result (λ c. c ≡ asked_closer text.now fault) }
{
    match script_of(alloc, text)? {
        Some(script) => Ok(bound_closer(fault.kind, &script, fault.line)),
        None => line_closer(alloc, fault.kind, text, fault.line),
    }
}

/// The cause of a fault that is one of a line, or of a text that is too long.
fn numbered(alloc: Global, text: &[u8], fault: ScriptFault) -> Result<Closer, AllocError>
    ensures { IfOk result (λ c. c ≡ numbered text.now fault) }
{
    if fault.line == 0 {
        return Ok(at_word(Detail::LongText, 0));
    }
    asked_closer(alloc, text, fault)
}

/// The cause of the fault of a text, or of its script over its volume, and the word at which it is.
pub(crate) fn closer_of(
    alloc: Global,
    text: &[u8],
    fault: ScriptFault,
) -> Result<Closer, AllocError>
    ensures { IfOk result (λ c. c ≡ closer_of text.now fault) }
{
    match fault.kind {
        ScriptKind::OutOfPlace => Ok(order_closer(text, fault.line)),
        ScriptKind::TooMany
        | ScriptKind::BadSegments
        | ScriptKind::BadRange
        | ScriptKind::BadFault
        | ScriptKind::NoIntegrity => numbered(alloc, text, fault),
        _ => Ok(plain()),
    }
}
