//! The words of scripts.

use page_pool::Seg;
use script_words::{
    byte, choice, hex_bytes, is_plain, leg, long_tag, next_line, next_word, number_within, segment,
    segments, short_hex, signed_within, spot, tag,
};
use std::alloc::{AllocError, Global};
use test_table::{cut, hex_of, number, small, text_of};

fn none(alloc: Global) -> Result<String, AllocError> {
    String::from_str(alloc, "none")
}

/// A text in quotes, with what can't be seen escaped.
pub(crate) fn quoted(alloc: Global, text: &[u8]) -> Result<String, AllocError> {
    let text = str::from_utf8(text).unwrap_or("?");
    format!(in alloc; "{text:?}")
}

/// Two pieces of a text.
fn pieces(alloc: Global, found: Option<(&[u8], &[u8])>) -> Result<String, AllocError> {
    let Some((first, rest)) = found else {
        return none(alloc);
    };
    let mut text = quoted(alloc, first)?;
    text.push(' ')?;
    text.push_str(quoted(alloc, rest)?.as_str())?;
    Ok(text)
}

fn number_text(alloc: Global, found: Option<u64>) -> Result<String, AllocError> {
    match found {
        Some(n) => format!(in alloc; "{n}"),
        None => none(alloc),
    }
}

fn pair_text(alloc: Global, found: Option<(u32, u64)>) -> Result<String, AllocError> {
    match found {
        Some((a, b)) => format!(in alloc; "{a} {b}"),
        None => none(alloc),
    }
}

/// Two numbers of 32 bits, the second in 64.
fn wide(found: Option<(u32, u32)>) -> Option<(u32, u64)> {
    let (a, b) = found?;
    Some((a, u64::from(b)))
}

fn segs_text(alloc: Global, segs: &[Seg]) -> Result<String, AllocError> {
    let mut text = String::new(alloc);
    for seg in segs {
        let part = format!(in alloc; "{}:{}:{};", seg.page, seg.off, seg.len)?;
        text.push_str(part.as_str())?;
    }
    Ok(text)
}

fn seg_text(alloc: Global, found: Option<Seg>) -> Result<String, AllocError> {
    match found {
        Some(seg) => segs_text(alloc, &[seg]),
        None => none(alloc),
    }
}

/// How many bytes there are, and the first eight of them.
fn bytes_text(alloc: Global, bytes: &[u8]) -> Result<String, AllocError> {
    let digits = hex_of(alloc, bytes.get(..8).unwrap_or(bytes))?;
    let count = bytes.len();
    format!(in alloc; "{count} bytes {digits}")
}

fn short_text(alloc: Global, word: &[u8]) -> Result<String, AllocError> {
    match short_hex(word) {
        Some(bytes) => bytes_text(alloc, bytes.as_slice()),
        None => none(alloc),
    }
}

fn long_text(alloc: Global, word: &[u8]) -> Result<String, AllocError> {
    match hex_bytes(alloc, word)? {
        Some(bytes) => bytes_text(alloc, &bytes),
        None => none(alloc),
    }
}

fn list_text(alloc: Global, word: &[u8]) -> Result<String, AllocError> {
    match segments(alloc, word)? {
        Some(segs) => segs_text(alloc, &segs),
        None => none(alloc),
    }
}

fn plain_text(alloc: Global, line: &[u8]) -> Result<String, AllocError> {
    let text = if is_plain(line) { "yes" } else { "no" };
    String::from_str(alloc, text)
}

/// The number of a word between two others.
fn within(alloc: Global, words: &str) -> Result<String, AllocError> {
    let (low, rest) = cut(words);
    let (high, word) = cut(rest);
    let word = text_of(alloc, word)?;
    number_text(alloc, number_within(&word, number(low), number(high)))
}

/// The signed number of a word of at most a size.
fn signed(alloc: Global, words: &str) -> Result<String, AllocError> {
    let (most, word) = cut(words);
    match signed_within(word.as_bytes(), small(most)) {
        Some(n) => format!(in alloc; "{n}"),
        None => none(alloc),
    }
}

/// The number of a word of hexadecimal digits.
fn digits_row(alloc: Global, name: &str, word: &[u8]) -> Result<String, AllocError> {
    let found = match name {
        "byte" => byte(word).map(u64::from),
        "tag" => tag(word).map(u64::from),
        _ => long_tag(word).map(u64::from),
    };
    number_text(alloc, found)
}

/// What a place, a list of them or bytes say.
fn place_row(alloc: Global, name: &str, word: &[u8]) -> Result<String, AllocError> {
    match name {
        "segment" => seg_text(alloc, segment(word)),
        "segments" => list_text(alloc, word),
        "spot" => pair_text(alloc, wide(spot(word))),
        "leg" => pair_text(alloc, leg(word)),
        "choice" => pair_text(alloc, wide(choice(word))),
        "short" => short_text(alloc, word),
        "bytes" => long_text(alloc, word),
        _ => digits_row(alloc, name, word),
    }
}

/// What comes of a call on a line or a word.
pub(crate) fn word_row(alloc: Global, name: &str, rest: &str) -> Result<String, AllocError> {
    match name {
        "within" => within(alloc, rest),
        "signed" => signed(alloc, rest),
        "line" => pieces(alloc, next_line(&text_of(alloc, rest)?)),
        "word" => pieces(alloc, next_word(&text_of(alloc, rest)?)),
        "plain" => plain_text(alloc, &text_of(alloc, rest)?),
        _ => place_row(alloc, name, &text_of(alloc, rest)?),
    }
}
