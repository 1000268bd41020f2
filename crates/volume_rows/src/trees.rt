//! Stripes over inner volumes.

ghost use Rattle.std.specs.Prelude.{◌≡◌, ◌+◌, ◌<◌, ◌^◌, IfOk, OnOk};
ghost use Rattle.volume_tree.specs.Tracks.{FollowsFrom, track_len, tracks_of};
ghost use Rattle.volume_tree.specs.Trees.{AreTracks};

use crate::entries::entries_text;
use crate::names::out_of_range;
use linear_volume::Linear;
use std::alloc::{AllocError, AllocFailed, Global};
use test_table::{cut, number, small};
use volume_tree::{TreeFault, expand};

/// An extent of an inner volume: how many blocks, and where.
#[derive(Clone, Copy)]
struct Part {
    len: u64,
    dev: u32,
    at: u64,
}

/// Why a tree can't be asked for.
#[derive(Drop)]
enum Unasked {
    OutOfRange,
    Memory,
}

impl<T: Drop> From<AllocFailed<T>> for Unasked {
    fn from(_fault: AllocFailed<T>) -> Unasked {
        Unasked::Memory
    }
}

impl From<AllocError> for Unasked {
    fn from(_fault: AllocError) -> Unasked {
        Unasked::Memory
    }
}

fn add_part(track: &mut Vec<Linear>, start: u64, part: Part) -> Result<(), Unasked>
    requires before { FollowsFrom 0 track.old.items }
    requires start { start ≡ track_len track.old.items }
    ensures after { OnOk result (FollowsFrom 0 track.new.items) }
    ensures end { OnOk result (start + part.len ≡ track_len track.new.items) }
    ensures bound { OnOk result (start + part.len < 2 ^ 64) }
{
    let Part { len, dev, at } = part;
    if len < 1 || len > 1048576 || start > 1000000000 || at > 1000000000 {
        return Err(Unasked::OutOfRange);
    }
    match track.push(Linear {
        start,
        len,
        dev,
        at,
    }) {
        Ok(()) => Ok(()),
        Err(_) => Err(Unasked::Memory),
    }
}

fn track(alloc: Global, parts: &[Part]) -> Result<Vec<Linear>, Unasked>
    ensures { IfOk result (λ t. FollowsFrom 0 t.items) }
{
    let mut track = Vec::new(alloc);
    let mut start = 0u64;
    for part in parts {
        add_part(&mut track, start, *part)?;
        start += part.len;
    }
    Ok(track)
}

fn tracks(alloc: Global, legs: &[Vec<Part>]) -> Result<Vec<Vec<Linear>>, Unasked>
    ensures { IfOk result (λ ts. AreTracks (tracks_of ts.items)) }
{
    let mut all = Vec::new(alloc);
    for leg in legs {
        all.push(track(alloc, leg)?)?;
    }
    Ok(all)
}

/// The extent of three numbers with / between.
fn part_of(text: &str) -> Part {
    let mut words = text.split('/');
    Part {
        len: number(words.next().unwrap_or("")),
        dev: small(words.next().unwrap_or("")),
        at: number(words.next().unwrap_or("")),
    }
}

/// Adds an extent, as many times as stands before a * in its text; none for -.
fn add_parts(parts: &mut Vec<Part>, text: &str) -> Result<(), AllocError> {
    if text == "-" {
        return Ok(());
    }
    let (times, part) = text.split_once('*').unwrap_or(("1", text));
    for _ in 0..small(times).min(64) {
        parts.push(part_of(part))?;
    }
    Ok(())
}

fn parts_of(alloc: Global, text: &str) -> Result<Vec<Part>, AllocError> {
    let mut parts = Vec::new(alloc);
    for part in text.split(',') {
        add_parts(&mut parts, part)?;
    }
    Ok(parts)
}

fn legs_of(alloc: Global, text: &str) -> Result<Vec<Vec<Part>>, AllocError> {
    let mut legs = Vec::new(alloc);
    for leg in text.split(';') {
        legs.push(parts_of(alloc, leg)?)?;
    }
    Ok(legs)
}

fn fault_text(alloc: Global, fault: TreeFault) -> Result<String, AllocError> {
    match fault {
        TreeFault::BadLength => String::from_str(alloc, "BadLength"),
        TreeFault::Unaligned => String::from_str(alloc, "Unaligned"),
        TreeFault::TooMany => String::from_str(alloc, "TooMany"),
        TreeFault::Memory => Err(AllocError),
    }
}

/// The entries that say the same as a stripe over these inner volumes, or why there are none.
fn expanded(
    alloc: Global,
    start: u64,
    len: u64,
    chunk: u32,
    legs: &[Vec<Linear>],
) -> Result<String, AllocError>
    requires { AreTracks (tracks_of legs.now) }
{
    if chunk < 1 || legs.is_empty() || legs.len() > 8 {
        return out_of_range(alloc);
    }
    if len < 1 || len > 1048576 || start > 1000000000 {
        return out_of_range(alloc);
    }
    match expand(alloc, start, len, chunk, legs) {
        Ok(list) => entries_text(alloc, &list),
        Err(fault) => fault_text(alloc, fault),
    }
}

/// What comes of four words: the first block, how many, the blocks of a chunk, and the inner volumes.
pub(crate) fn answer(alloc: Global, words: &str) -> Result<String, AllocError> {
    let (start, rest) = cut(words);
    let (len, rest) = cut(rest);
    let (chunk, legs) = cut(rest);
    match tracks(alloc, &legs_of(alloc, legs)?) {
        Ok(all) => expanded(alloc, number(start), number(len), small(chunk), &all),
        Err(Unasked::OutOfRange) => out_of_range(alloc),
        Err(Unasked::Memory) => Err(AllocError),
    }
}
