//! The modes of a type, and how tuples travel.

use block_path::Mode;
use mode_map::modes_text;
use pi_guard::GuardKind;
use pi_tuple::PiType;
use std::alloc::{AllocError, Global};
use test_table::{Words, tag_of};

fn guard_of(word: &str) -> GuardKind {
    if word == "ip" {
        GuardKind::Ip
    } else {
        GuardKind::Crc
    }
}

/// The mode of five words: the host's guard, whether tuples travel between host and adapter, and between adapter and
/// target, the application tag that is expected, and its mask.
pub(crate) fn mode_of(words: &mut Words<'_>) -> Mode {
    let kind = guard_of(words.word());
    let (dix, dif) = (words.word() == "on", words.word() == "on");
    Mode {
        kind,
        dix,
        dif,
        protect: 1,
        app: tag_of(words.word()),
        mask: tag_of(words.word()),
    }
}

/// The lines of a type, with / at the end of each.
pub(crate) fn lines(alloc: Global, ty: PiType) -> Result<String, AllocError> {
    let mut text = modes_text(alloc, ty)?;
    for byte in text.iter_mut() {
        if *byte == b'\n' {
            *byte = b'/';
        }
    }
    match String::from_utf8(text) {
        Ok(text) => Ok(text),
        Err(_) => String::from_str(alloc, "no text"),
    }
}
