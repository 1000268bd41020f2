//! The lines before the volume: `mode`, `limits`, `pages`, `block` and `expect`.

ghost use Rattle.std.specs.Prelude.{◌≡◌, ◌≤◌, IfOk, IfSome};
ghost use Rattle.script_lines.specs.Forms.{IsSound, block_form, expect_form, guard_by, limits_form, mask_in, mode_form, pages_form, protect_in, size_in};
ghost use Rattle.script_lines.specs.Reading.{Reads, value};
ghost use Rattle.script_words.specs.Hexes.{tag_in};
ghost use Rattle.pi_tuple.specs.declared.TheConstants.{LARGEST_BLOCK};

use crate::line::{ModeLine, ScriptLine};
use crate::{ScriptKind, Words};
use merge_queue::Limits;
use pi_guard::GuardKind;
use script_words::{number_within, tag};

/// Limits of a command.
const MOST: u32 = 1024;

fn guard_of(is_ip: bool) -> GuardKind
    ensures { result ≡ guard_by is_ip }
{
    if is_ip { GuardKind::Ip } else { GuardKind::Crc }
}

/// 1, 3 or 4
fn protect_in(word: &[u8]) -> Option<u8>
    ensures { result ≡ protect_in word.now }
{
    let protect = number_within(word, 1, 4)?;
    if protect == 2 {
        return None;
    }
    Some(protect as u8)
}

fn protect(words: &mut Words) -> Result<u8, ScriptKind>
    ensures { Reads (value protect_in words.old) result words.new }
{
    match protect_in(words.word()?) {
        Some(protect) => Ok(protect),
        None => Err(ScriptKind::BadNumber),
    }
}

/// `mode GUARD DIX DIF PROTECT`
#[tactic(auto, unfolding(crate::specs::Forms::mode_form))]
pub(crate) fn mode_line(words: &mut Words) -> Result<ScriptLine, ScriptKind>
    ensures value { result ≡ mode_form words.old }
    ensures sound { IfOk result IsSound }
{
    let is_ip = words.either(b"ip", b"crc")?;
    let dix = words.either(b"on", b"off")?;
    let dif = words.either(b"on", b"off")?;
    let protect = protect(words)?;
    words.end()?;
    Ok(ScriptLine::Mode(ModeLine {
        kind: guard_of(is_ip),
        dix,
        dif,
        protect,
    }))
}

/// `limits B S T`
#[tactic(auto, unfolding(crate::specs::Forms::limits_form))]
pub(crate) fn limits_line(words: &mut Words) -> Result<ScriptLine, ScriptKind>
    ensures value { result ≡ limits_form words.old }
    ensures sound { IfOk result IsSound }
{
    let max_blocks = words.small(1, MOST)?;
    let max_segs = words.small(4, MOST)?;
    let max_pi_segs = words.small(1, MOST)?;
    words.end()?;
    Ok(ScriptLine::Limits(Limits {
        max_blocks,
        max_segs,
        max_pi_segs,
    }))
}

/// `pages N`
#[tactic(auto, unfolding(crate::specs::Forms::pages_form))]
pub(crate) fn pages_line(words: &mut Words) -> Result<ScriptLine, ScriptKind>
    ensures value { result ≡ pages_form words.old }
    ensures sound { IfOk result IsSound }
{
    let pages = words.small(1, 256)?;
    words.end()?;
    Ok(ScriptLine::Pages(pages))
}

/// 512 or 4096
fn size_in(word: &[u8]) -> Option<u32>
    ensures value { result ≡ size_in word.now }
    ensures bound { IfSome result (λ n. n ≤ LARGEST_BLOCK) }
{
    let size = number_within(word, 0, 0xffff_ffff)?;
    if size == 512 || size == 4096 {
        return Some(size as u32);
    }
    None
}

fn size(words: &mut Words) -> Result<u32, ScriptKind>
    ensures value { Reads (value size_in words.old) result words.new }
    ensures bound { IfOk result (λ n. n ≤ LARGEST_BLOCK) }
{
    match size_in(words.word()?) {
        Some(size) => Ok(size),
        None => Err(ScriptKind::BadNumber),
    }
}

/// `block S`
#[tactic(auto, unfolding(crate::specs::Forms::block_form))]
pub(crate) fn block_line(words: &mut Words) -> Result<ScriptLine, ScriptKind>
    ensures value { result ≡ block_form words.old }
    ensures sound { IfOk result IsSound }
{
    let size = size(words)?;
    words.end()?;
    Ok(ScriptLine::Block(size))
}

/// A tag other than 0000.
fn mask_in(word: &[u8]) -> Option<u16>
    ensures { result ≡ mask_in word.now }
{
    let mask = tag(word)?;
    if mask == 0 {
        return None;
    }
    Some(mask)
}

fn mask(words: &mut Words) -> Result<u16, ScriptKind>
    ensures { Reads (value mask_in words.old) result words.new }
{
    match mask_in(words.word()?) {
        Some(mask) => Ok(mask),
        None => Err(ScriptKind::BadNumber),
    }
}

/// `expect TAG MASK`
#[tactic(auto, unfolding(crate::specs::Forms::expect_form))]
pub(crate) fn expect_line(words: &mut Words) -> Result<ScriptLine, ScriptKind>
    ensures value { result ≡ expect_form words.old }
    ensures sound { IfOk result IsSound }
{
    let app = words.tag()?;
    let mask = mask(words)?;
    words.end()?;
    Ok(ScriptLine::Expect { app, mask })
}
