//! Segments and kinds as rows write them.

ghost use Rattle.std.specs.Prelude.{◌≡◌, ◌+◌, ◌<◌, ◌^◌, true};

use bio_core::Dir;
use page_pool::Seg;
use pi_guard::GuardKind;
use pi_tuple::PiType;
use std::alloc::{AllocError, Global};
use test_table::small;

/// The segment of a word PAGE:OFFSET:LENGTH.
pub(crate) fn seg_of(word: &str) -> Seg {
    let (page, place) = word.split_once(':').unwrap_or((word, ""));
    let (off, len) = place.split_once(':').unwrap_or((place, ""));
    Seg {
        page: small(page),
        off: small(off),
        len: small(len),
    }
}

fn add_times(segs: &mut Vec<Seg>, times: u32, seg: Seg) -> Result<(), AllocError> {
    for _ in 0..times.min(1024) {
        segs.push(seg)?;
    }
    Ok(())
}

/// The segments of these words, each with N* before it where it stands there N times.
pub(crate) fn segs_of(alloc: Global, words: &str) -> Result<Vec<Seg>, AllocError> {
    let mut segs = Vec::new(alloc);
    for word in words.split(' ') {
        let (times, seg) = word.split_once('*').unwrap_or(("1", word));
        add_times(&mut segs, small(times), seg_of(seg))?;
    }
    Ok(segs)
}

pub(crate) fn type_of(word: &str) -> PiType {
    match word {
        "0" => PiType::Zero,
        "1" => PiType::One,
        "2" => PiType::Two,
        _ => PiType::Three,
    }
}

pub(crate) fn guard_of(word: &str) -> GuardKind {
    if word == "ip" {
        GuardKind::Ip
    } else {
        GuardKind::Crc
    }
}

pub(crate) fn dir_of(word: &str) -> Dir {
    if word == "read" {
        Dir::Read
    } else {
        Dir::Write
    }
}

/// How a direction is written.
pub(crate) fn dir_word(dir: Dir) -> &'static str {
    if dir == Dir::Read { "read" } else { "write" }
}

/// Whether so many blocks from one on end in 64 bits.
pub(crate) fn fits(first: u64, count: u64) -> bool
    ensures { result ≡ true → first + count < 2 ^ 64 }
{
    count <= u64::MAX - first
}
