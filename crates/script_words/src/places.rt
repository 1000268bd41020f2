//! Words of several numbers: segments, places of pages, legs of stripes, entries of schedules.

ghost use Rattle.std.specs.Prelude.{◌≡◌, IfOk, option_map};
ghost use Rattle.script_words.specs.Places.{choice_in, leg_in, seg_in, segs_in, spot_in, word32, word64};

use crate::cuts::split_once;
use crate::numbers::number_within;
use page_pool::Seg;
use std::alloc::{AllocError, Global};

fn word32(word: &[u8]) -> Option<u32>
    ensures { result ≡ word32 word.now }
{
    let value = number_within(word, 0, 0xffff_ffff)?;
    Some(value as u32)
}

fn word64(word: &[u8]) -> Option<u64>
    ensures { result ≡ word64 word.now }
{
    number_within(word, 0, 0xffff_ffff_ffff_ffff)
}

/// The page and the offset of `P:O`, both below 2^32.
pub fn spot(word: &[u8]) -> Option<(u32, u32)>
    ensures { result ≡ spot_in word.now }
{
    let (page, off) = split_once(word, b':')?;
    let page = word32(page)?;
    let off = word32(off)?;
    Some((page, off))
}

/// The device and the address of a leg `D:A`.
pub fn leg(word: &[u8]) -> Option<(u32, u64)>
    ensures { result ≡ leg_in word.now }
{
    let (dev, at) = split_once(word, b':')?;
    let dev = word32(dev)?;
    let at = word64(at)?;
    Some((dev, at))
}

/// The word and the cut of a schedule's entry, `W/C` or `W`, whose cut is 0.
pub fn choice(word: &[u8]) -> Option<(u32, u32)>
    ensures { result ≡ choice_in word.now }
{
    match split_once(word, b'/') {
        Some((choice, cut)) => {
            let choice = word32(choice)?;
            let cut = word32(cut)?;
            Some((choice, cut))
        }
        None => {
            let choice = word32(word)?;
            Some((choice, 0))
        }
    }
}

/// A segment `P:O:L`, three numbers below 2^32.
pub fn segment(word: &[u8]) -> Option<Seg>
    ensures { result ≡ seg_in word.now }
{
    let (page, rest) = split_once(word, b':')?;
    let page = word32(page)?;
    let (off, len) = spot(rest)?;
    Some(Seg { page, off, len })
}

/// Segments with commas between them; `None` where the word isn't such a list. The one error is
/// want of memory.
pub fn segments(alloc: Global, word: &[u8]) -> Result<Option<Vec<Seg>>, AllocError>
    ensures { IfOk result (λ found. option_map (λ v. v.items) found ≡ segs_in word.now) }
{
    let mut segs = Vec::new(alloc);
    let mut rest = word;
    while let Some((first, behind)) = split_once(rest, b',') {
        let Some(seg) = segment(first) else {
            return Ok(None);
        };
        segs.push(seg)?;
        rest = behind;
    }
    let Some(seg) = segment(rest) else {
        return Ok(None);
    };
    segs.push(seg)?;
    Ok(Some(segs))
}
