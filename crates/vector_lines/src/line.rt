//! One line of a list.

ghost use Rattle.std.specs.Prelude.{◌≡◌, IfErr, IfOk, OnOk, option_map};
ghost use Rattle.script_lines.specs.declared.kind.ScriptKind.{ScriptKind};
ghost use Rattle.script_lines.specs.Reading.{IsUnless, Reads, ReadsUnless, fixed, value};
ghost use Rattle.script_words.specs.Hexes.{hex_in};
ghost use Rattle.script_words.specs.Places.{word32};
ghost use Rattle.vector_lines.specs.Lines.{line_form, most_out, out_in, verb};

use dix_base::ByteList;
use fault_schedule::ShortBytes;
use script_lines::{ScriptKind, Words};
use std::alloc::{AllocError, Global};

/// A line `v DEV CDB OUT`.
#[derive(Drop)]
pub struct VectorLine {
    /// The number of the line, from 1.
    pub number: u32,
    /// The device, from 0.
    pub dev: u32,
    /// The command block, 1 to 32 bytes.
    pub cdb: ShortBytes,
    /// What is sent to the device; nothing where the word is `-`.
    pub out: ByteList,
}

fn word32(word: &[u8]) -> Option<u32>
    ensures { result ≡ word32 word.now }
{
    let value = script_words::number_within(word, 0, 0xffff_ffff)?;
    Some(value as u32)
}

/// The bytes that the word spells, at least one; `None` where it doesn't spell such.
fn hex_bytes(alloc: Global, word: &[u8]) -> Result<Option<Vec<u8>>, AllocError>
    ensures { IfOk result (λ found. option_map (λ v. v.items) found ≡ hex_in most_out word.now) }
{
    if word.is_empty() || word.len() > 4_194_304 {
        return Ok(None);
    }
    let mut bytes = vec![in alloc; 0u8; word.len() / 2]?;
    match hex::decode_to_slice(word, bytes.as_mut_slice()) {
        Ok(()) => Ok(Some(bytes)),
        Err(_) => Ok(None),
    }
}

/// What is sent: nothing for `-`, else the bytes that the word spells.
fn out_in(alloc: Global, word: &[u8]) -> Result<Option<Vec<u8>>, AllocError>
    ensures { IfOk result (λ found. option_map (λ v. v.items) found ≡ out_in word.now) }
{
    if word == b"-".as_slice() {
        return Ok(Some(Vec::new(alloc)));
    }
    hex_bytes(alloc, word)
}

/// The first word, which has to be `v`.
fn take_verb(words: &mut Words) -> Result<(), ScriptKind>
    ensures found { OnOk result (fixed verb words.old ≡ Ok words.new) }
    ensures fault { IfErr result (λ k. fixed verb words.old ≡ Err k) }
{
    match words.next() {
        None => Err(ScriptKind::MissingWord),
        Some(word) => {
            if word == b"v".as_slice() {
                Ok(())
            } else {
                Err(ScriptKind::UnknownWord)
            }
        }
    }
}

/// The next word, which has to be a device.
fn take_dev(words: &mut Words) -> Result<u32, ScriptKind>
    ensures { Reads (value word32 words.old) result words.new }
{
    match words.next() {
        None => Err(ScriptKind::MissingWord),
        Some(word) => match word32(word) {
            Some(dev) => Ok(dev),
            None => Err(ScriptKind::BadNumber),
        },
    }
}

/// The next word, which has to be a command block.
fn take_cdb(words: &mut Words) -> Result<ShortBytes, ScriptKind>
    ensures { Reads (value (hex_in 32) words.old) result words.new }
{
    match words.next() {
        None => Err(ScriptKind::MissingWord),
        Some(word) => match script_words::short_hex(word) {
            Some(cdb) => Ok(cdb),
            None => Err(ScriptKind::BadNumber),
        },
    }
}

/// The next word, which has to be what is sent.
fn take_out(alloc: Global, words: &mut Words) -> Result<ByteList, ScriptKind>
    ensures { ReadsUnless (value out_in words.old) result words.new }
{
    match words.next() {
        None => Err(ScriptKind::MissingWord),
        Some(word) => match out_in(alloc, word)? {
            Some(bytes) => Ok(ByteList::from_vec(bytes)),
            None => Err(ScriptKind::BadNumber),
        },
    }
}

/// The line of these words, or its first fault from the left, or want of memory.
pub(crate) fn line_of(
    alloc: Global,
    number: u32,
    words: &mut Words,
) -> Result<VectorLine, ScriptKind>
    ensures { IsUnless (line_form number words.old) result }
{
    take_verb(words)?;
    let dev = take_dev(words)?;
    let cdb = take_cdb(words)?;
    let out = take_out(alloc, words)?;
    Ok(VectorLine {
        number,
        dev,
        cdb,
        out,
    })
}
