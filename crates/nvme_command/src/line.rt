//! One line.

ghost use Rattle.std.specs.Prelude.{◌≡◌, ◌∷◌, ◌≤◌, [], IfErr, IfOk, length, option_map};
ghost use Rattle.script_lines.specs.declared.kind.ScriptKind.{ScriptKind};
ghost use Rattle.script_lines.specs.Reading.{IsUnless};
ghost use Rattle.nvme_command.specs.Lines.{IsGot, fill_word, line_form, meta_in, meta_word, sqe_in, sqe_word};
ghost use Rattle.script_words.specs.Hexes.{hex_in};

use dix_base::ByteList;
use script_lines::{ScriptKind, Words};
use std::alloc::{AllocError, Global};

/// A line `SQE FILL META`.
#[derive(Drop)]
pub struct NvmLine {
    /// The number of the line, from 1.
    pub number: u32,
    /// The 64 bytes of the command.
    pub sqe: [u8; 64],
    /// The byte that fills the data of a write.
    pub fill: u8,
    /// The metadata of a write; none where the word is `-`.
    pub meta: ByteList,
}

/// The 64 bytes that 128 digits spell.
fn sqe_in(word: &[u8]) -> Option<[u8; 64]>
    ensures { result ≡ sqe_in word.now }
{
    let mut bytes = [0u8; 64];
    match hex::decode_to_slice(word, &mut bytes) {
        Ok(()) => Some(bytes),
        Err(_) => None,
    }
}

/// The bytes that the word spells, 1 to 2,048; `None` where it doesn't spell such.
fn hex_bytes(alloc: Global, word: &[u8]) -> Result<Option<Vec<u8>>, AllocError>
    ensures { IfOk result (λ found. option_map (λ v. v.items) found ≡ hex_in 2048 word.now) }
{
    if word.is_empty() || word.len() > 4096 {
        return Ok(None);
    }
    let mut bytes = vec![in alloc; 0u8; word.len() / 2]?;
    match hex::decode_to_slice(word, bytes.as_mut_slice()) {
        Ok(()) => Ok(Some(bytes)),
        Err(_) => Ok(None),
    }
}

/// The metadata of a word: nothing for `-`, else the bytes that it spells.
fn meta_in(alloc: Global, word: &[u8]) -> Result<Option<Vec<u8>>, AllocError>
    ensures { IfOk result (λ found. option_map (λ v. v.items) found ≡ meta_in word.now) }
{
    if word == b"-".as_slice() {
        return Ok(Some(Vec::new(alloc)));
    }
    hex_bytes(alloc, word)
}

/// The next word, which has to be the bytes of a command.
fn take_sqe(words: &mut Words) -> Result<[u8; 64], ScriptKind>
    ensures { IsGot (sqe_word words.old) result words.new }
{
    match words.next() {
        None => Err(ScriptKind::MissingWord),
        Some(word) => match sqe_in(word) {
            Some(sqe) => Ok(sqe),
            None => Err(ScriptKind::BadNumber),
        },
    }
}

/// The next word, which has to be a byte.
fn take_fill(words: &mut Words) -> Result<u8, ScriptKind>
    ensures { IsGot (fill_word words.old) result words.new }
{
    match words.next() {
        None => Err(ScriptKind::MissingWord),
        Some(word) => match script_words::byte(word) {
            Some(fill) => Ok(fill),
            None => Err(ScriptKind::BadNumber),
        },
    }
}

/// The last word, which has to be metadata.
fn take_meta(alloc: Global, words: &mut Words) -> Result<ByteList, ScriptKind>
    ensures { IsUnless (meta_word words.old) result }
{
    let Some(word) = words.next() else {
        return Err(ScriptKind::MissingWord);
    };
    let Some(bytes) = meta_in(alloc, word)? else {
        return Err(ScriptKind::BadNumber);
    };
    match words.next() {
        None => Ok(ByteList::from_vec(bytes)),
        Some(_) => Err(ScriptKind::ExtraWord),
    }
}

/// The line of these words, or its first fault from the left, or want of memory.
pub(crate) fn line_of(alloc: Global, number: u32, words: &mut Words) -> Result<NvmLine, ScriptKind>
    ensures { IsUnless (line_form number words.old) result }
{
    let sqe = take_sqe(words)?;
    let fill = take_fill(words)?;
    let meta = take_meta(alloc, words)?;
    Ok(NvmLine {
        number,
        sqe,
        fill,
        meta,
    })
}
