//! The lines before a row by their first words, their marks.

use crate::words::{cut, number};
use std::alloc::{AllocError, Global};

/// Whether a word is one of those, which have a space between them.
pub fn is_one_of(word: &str, words: &str) -> bool {
    for one in words.split(' ') {
        if one == word {
            return true;
        }
    }
    false
}

/// What stands behind the mark in the first line that has it.
fn found<'a>(lines: &'a [String], mark: &str) -> Option<&'a str> {
    for line in lines {
        let (word, rest) = cut(line.as_str());
        if word == mark {
            return Some(rest);
        }
    }
    None
}

/// Whether a line has this mark.
pub fn has(lines: &[String], mark: &str) -> bool {
    found(lines, mark).is_some()
}

/// What stands behind the mark in the first line that has it; nothing where none has it.
pub fn behind<'a>(lines: &'a [String], mark: &str) -> &'a str {
    found(lines, mark).unwrap_or("")
}

/// The numbers behind a mark.
///
/// # Errors
///
/// Want of memory alone.
pub fn numbers(alloc: Global, lines: &[String], mark: &str) -> Result<Vec<u64>, AllocError> {
    let mut numbers = Vec::new(alloc);
    for word in behind(lines, mark).split(' ') {
        numbers.push(word.parse::<u64>().unwrap_or(0))?;
    }
    Ok(numbers)
}

/// The status that a row wants: 0 where it says none.
pub fn status_wanted(lines: &[String]) -> u64 {
    if has(lines, "status") {
        number(behind(lines, "status"))
    } else {
        0
    }
}

/// One more line of a text.
///
/// # Errors
///
/// Want of memory alone.
pub fn add_line(text: &mut Vec<u8>, line: &str) -> Result<(), AllocError> {
    text.extend_from_slice(line.as_bytes())?;
    text.push(b'\n')?;
    Ok(())
}

/// A word of a call, which is nothing for `''`, else has a space for each `_`.
///
/// # Errors
///
/// Want of memory alone.
pub fn word_of(alloc: Global, text: &str) -> Result<String, AllocError> {
    let mut word = String::new(alloc);
    if text == "''" {
        return Ok(word);
    }
    for (i, part) in text.split('_').enumerate() {
        if i > 0 {
            word.push(' ')?;
        }
        word.push_str(part)?;
    }
    Ok(word)
}
