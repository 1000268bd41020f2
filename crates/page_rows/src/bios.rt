//! Bios of the request.

ghost use Rattle.std.specs.Prelude.{◌≡◌, ◌<◌, ◌≤◌, ◌+◌, ◌^◌, true};
ghost use Rattle.bio_core.specs.Bios.{HasTuplesFor};

use crate::kinds::dir_word;
use crate::scene::Scene;
use bio_core::{Bio, Io};
use integrity_payload::Payload;
use std::alloc::{AllocError, Global};
use test_groups::is_payload;
use test_table::Words;

/// Whether the request has tuples for each of its blocks, or none.
fn has_tuples(pi: &Option<Payload>, count: u32) -> bool
    ensures { result ≡ true → HasTuplesFor pi.now count }
{
    match pi {
        Some(pi) => is_payload(pi) && pi.count == count,
        None => true,
    }
}

/// Whether the bio is of blocks of the request.
fn is_of(io: &Io, bio: &Bio) -> bool
    ensures request { result ≡ true → bio.now.k + bio.now.count ≤ io.now.count }
    ensures tuples { result ≡ true → HasTuplesFor io.now.pi io.now.count }
    ensures ends { result ≡ true → bio.now.lba + bio.now.count < 2 ^ 64 }
{
    bio.k as u64 + bio.count as u64 <= io.count as u64
        && bio.count as u64 <= u64::MAX - bio.lba
        && has_tuples(&io.pi, io.count)
}

/// The bio of six numbers: its op, first block, number of blocks, device and address.
fn bio_of(io: &Io, words: &str) -> Option<Bio> {
    let mut words = Words::of(words);
    let op = words.small();
    let (k, count) = (words.small(), words.small());
    let (dev, lba) = (words.small(), words.number());
    if count == 0 || k as u64 + count as u64 > io.count as u64 || !has_tuples(&io.pi, io.count) {
        return None;
    }
    Some(Bio::of(io, op, k, count, dev, lba))
}

/// How a bio is written.
pub(crate) fn bio_text(alloc: Global, bio: &Bio) -> Result<String, AllocError> {
    let Bio {
        op,
        k,
        count,
        dev,
        lba,
        dir,
        segs,
        pi_segs,
    } = *bio;
    let dir = dir_word(dir);
    format!(in alloc; "{op} {k} {count} {dev} {lba} {dir} {segs} {pi_segs}")
}

fn told(alloc: Global, bio: Option<Bio>) -> Result<Option<String>, AllocError> {
    match bio {
        Some(bio) => Ok(Some(bio_text(alloc, &bio)?)),
        None => Ok(None),
    }
}

/// Makes the bio of these words the one that later rows are about.
pub(crate) fn set(scene: &mut Scene, words: &str) -> bool {
    match bio_of(&scene.io, words) {
        Some(bio) => {
            scene.bio = bio;
            true
        }
        None => false,
    }
}

fn part(io: &Io, bio: &Bio, at: u32, n: u32) -> Option<Bio> {
    let may = n > 0 && at as u64 + n as u64 <= bio.count as u64 && is_of(io, bio);
    if may { Some(bio.part(io, at, n)) } else { None }
}

fn split(alloc: Global, io: &Io, bio: &Bio, n: u32) -> Result<Option<String>, AllocError> {
    if n == 0 || n >= bio.count || !is_of(io, bio) {
        return Ok(None);
    }
    let (front, behind) = bio.split(io, n);
    let front = bio_text(alloc, &front)?;
    let behind = bio_text(alloc, &behind)?;
    Ok(Some(format!(in alloc; "{front} / {behind}")?))
}

fn complete(alloc: Global, io: &Io, bio: &Bio, n: u32) -> Result<Option<String>, AllocError> {
    if n > bio.count || !is_of(io, bio) {
        return Ok(None);
    }
    match bio.complete(io, n) {
        Some(left) => Ok(Some(bio_text(alloc, &left)?)),
        None => Ok(Some(String::from_str(alloc, "none")?)),
    }
}

fn block_size(alloc: Global, io: &Io) -> Result<Option<String>, AllocError> {
    if io.count == 0 {
        return Ok(None);
    }
    let size = io.block_size();
    Ok(Some(format!(in alloc; "{size}")?))
}

/// What a call to the request or its bio comes to.
pub(crate) fn answer(
    alloc: Global,
    scene: &Scene,
    word: &str,
    rest: &str,
) -> Result<Option<String>, AllocError> {
    let mut words = Words::of(rest);
    let (at, n) = (words.small(), words.small());
    let (io, bio) = (&scene.io, &scene.bio);
    match word {
        "of" => told(alloc, bio_of(io, rest)),
        "blocks" => told(alloc, part(io, bio, at, n)),
        "split" => split(alloc, io, bio, at),
        "complete" => complete(alloc, io, bio, at),
        "size" => block_size(alloc, io),
        _ => Ok(None),
    }
}
