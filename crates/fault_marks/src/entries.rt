//! Entries of a volume that don't fit the devices.

ghost use Rattle.std.specs.Prelude.{◌≡◌, ◌+◌, ◌-◌, ◌≤◌, ◌++◌, IfOk, OnOk, Some, length, option_map, take};
ghost use Rattle.fault_marks.specs.Closer.{settled};
ghost use Rattle.fault_marks.specs.Entries.{adds_entry, entries_of, entry_line, first_verb, is_entry_verb, is_linear, misfit_line, misfit_name, misfit_sentence, misfit_text, word_of};
ghost use Rattle.fault_marks.specs.Words.{text_behind};
ghost use Rattle.script_words.specs.Cuts.{words_of};

use crate::closer::settled;
use crate::lines::behind_newline;
use crate::marks::word_marked;
use crate::texts::add_number;
use script_lines::{Verb, Words, verb_of};
use script_words::next_line;
use std::alloc::{AllocError, Global};
use volume_table::VolumeKind;

/// What a line is, by its first word.
fn first_verb(line: &[u8]) -> Option<Verb>
    ensures { result ≡ first_verb (words_of line.now) }
{
    let mut words = Words::of(line);
    verb_of(words.next()?)
}

/// Whether lines of this verb add entries.
fn is_entry_verb(verb: Option<Verb>) -> bool
    ensures { result ≡ is_entry_verb verb }
{
    match verb {
        Some(Verb::Linear) | Some(Verb::Stripe) | Some(Verb::Over) => true,
        _ => false,
    }
}

fn is_linear(verb: Option<Verb>) -> bool
    ensures { result ≡ is_linear verb }
{
    match verb {
        Some(Verb::Linear) => true,
        _ => false,
    }
}

/// How many entries the volume has of the script that lines are, if need be with a `begin` behind them.
fn entries_of(alloc: Global, front: &[u8]) -> Result<usize, AllocError>
    ensures { IfOk result (λ n. n ≡ entries_of (settled front.now)) }
{
    match settled(alloc, front)? {
        None => Ok(0),
        Some(script) => Ok(script.entries.as_slice().len()),
    }
}

/// Whether a line adds this entry; so many bytes of the text are behind it.
fn adds_entry(
    alloc: Global,
    text: &[u8],
    entry: u32,
    before: usize,
    line: &[u8],
    behind: usize,
) -> Result<bool, AllocError>
    requires behind { behind ≡ length (text_behind (before + 1) text.now) }
    requires fits { behind ≤ length text.now }
    ensures { IfOk result (λ b. b ≡ adds_entry text.now entry before line.now) }
{
    if !is_entry_verb(first_verb(line)) {
        return Ok(false);
    }
    let entries = entries_of(alloc, &text[..text.len() - behind])?;
    Ok(entry as usize <= entries)
}

/// The line that adds this entry, with its number.
fn entry_line(alloc: Global, text: &[u8], entry: u32) -> Result<Option<(usize, &[u8])>, AllocError>
    ensures { IfOk result (λ found. option_map (λ p. (p.0, p.1.now)) found ≡ entry_line text.now entry) }
{
    let mut before = 0usize;
    let mut rest = text;
    while let Some((line, _)) = next_line(rest) {
        let behind = behind_newline(rest);
        if adds_entry(alloc, text, entry, before, line, behind.len())? {
            return Ok(Some((before + 1, line)));
        }
        before += 1;
        rest = behind;
    }
    Ok(None)
}

/// The word of its line that is wrong.
fn word_of(kind: VolumeKind, is_one: bool) -> usize
    ensures { result ≡ word_of kind is_one }
{
    match kind {
        VolumeKind::Gap => 1,
        VolumeKind::BadChunk => 2,
        VolumeKind::UnknownDevice | VolumeKind::MixedTypes | VolumeKind::OtherSize => {
            if is_one { 4 } else { 5 }
        }
        VolumeKind::BeforeStart | VolumeKind::PastEnd | VolumeKind::Overlap => {
            if is_one { 6 } else { 5 }
        }
    }
}

fn misfit_sentence(kind: VolumeKind) -> &'static [u8]
    ensures { result.now ≡ misfit_sentence kind }
{
    match kind {
        VolumeKind::Gap => b"the entry does not begin where the ones before it end",
        VolumeKind::UnknownDevice => b"the image has no such device",
        VolumeKind::BadChunk => {
            b"the length is not a multiple of the chunk times the number of legs"
        }
        VolumeKind::BeforeStart => b"the entry begins below the first address of a device",
        VolumeKind::PastEnd => b"the entry ends behind the last address of a device",
        VolumeKind::Overlap => {
            b"the entry has a block in common with another leg or an earlier entry"
        }
        VolumeKind::MixedTypes => b"a device has another protection type than the first",
        VolumeKind::OtherSize => b"a device has another block size than the script",
    }
}

/// Puts entry, number and name of the fault behind the text.
fn add_name(out: &mut Vec<u8>, entry: u32, kind: VolumeKind) -> Result<(), AllocError>
    ensures { OnOk result (out.new.items ≡ out.old.items ++ misfit_name entry kind) }
{
    out.extend_from_slice(b"volume ")?;
    add_number(out, u64::from(entry))?;
    out.extend_from_slice(b" ")?;
    add_number(out, u64::from(kind.number()))?;
    out.extend_from_slice(b" ")?;
    out.extend_from_slice(kind.name().as_bytes())
}

/// Puts the number of the script's line, and the line with a caret, behind the text.
fn add_found(
    alloc: Global,
    out: &mut Vec<u8>,
    kind: VolumeKind,
    number: usize,
    line: &[u8],
) -> Result<(), AllocError>
    ensures { OnOk result (out.new.items ≡ out.old.items ++ misfit_line kind (Some (number, line.now))) }
{
    let marked = word_marked(alloc, word_of(kind, is_linear(first_verb(line))), line)?;
    out.extend_from_slice(b" line ")?;
    add_number(out, number as u64)?;
    out.extend_from_slice(b"\n")?;
    out.extend_from_slice(&marked)
}

fn add_line(
    alloc: Global,
    out: &mut Vec<u8>,
    kind: VolumeKind,
    found: Option<(usize, &[u8])>,
) -> Result<(), AllocError>
    ensures { OnOk result (out.new.items ≡ out.old.items ++ misfit_line kind (option_map (λ p. (p.0, p.1.now)) found.entry)) }
{
    match found {
        Some((number, line)) => add_found(alloc, out, kind, number, line),
        None => out.extend_from_slice(b"\n"),
    }
}

/// What is said of an entry of a script's volume that doesn't fit the devices: its number, and the number and name
/// of its fault, the number of the script's line, the line itself with a caret under what is wrong, and a sentence.
/// The line is left out where it has more than 4,096 bytes.
pub fn misfit_text(
    alloc: Global,
    text: &[u8],
    entry: u32,
    kind: VolumeKind,
) -> Result<Vec<u8>, AllocError>
    ensures { IfOk result (λ v. v.items ≡ misfit_text text.now entry kind) }
{
    let found = entry_line(alloc, text, entry)?;
    let mut out = Vec::new(alloc);
    add_name(&mut out, entry, kind)?;
    add_line(alloc, &mut out, kind, found)?;
    out.extend_from_slice(misfit_sentence(kind))?;
    out.extend_from_slice(b"\n")?;
    Ok(out)
}
