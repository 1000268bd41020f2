//! The lines of a row by their first words, their marks.

use std::alloc::{AllocError, Global};
use test_table::{add_line, bytes_of, cut, hex_of, is_one_of};

/// The marks of lines of images.
const IMAGE_MARKS: &str = "put cut more second-put second-cut second-more then rig";

/// The marks of other lines.
const CALL_MARKS: &str =
    "$ in < <* file source-fails store-fails second-fails rig-fails sink-fails room says-fails says-room each status > >* >/ out ! !/";

/// Whether a line may have this mark.
pub(crate) fn is_mark(word: &str) -> bool {
    is_one_of(word, IMAGE_MARKS) || is_one_of(word, CALL_MARKS)
}

/// One more line of a text, which has the digits of the bytes for each word with a `*`.
fn add_long_line(alloc: Global, text: &mut Vec<u8>, line: &str) -> Result<(), AllocError> {
    for (i, word) in line.split(' ').enumerate() {
        if i > 0 {
            text.push(b' ')?;
        }
        if word.contains('*') {
            text.extend_from_slice(hex_of(alloc, &bytes_of(alloc, word)?)?.as_bytes())?;
        } else {
            text.extend_from_slice(word.as_bytes())?;
        }
    }
    text.push(b'\n')?;
    Ok(())
}

/// What the source gives: the lines and the bytes that a row says, in their order.
pub(crate) fn source(alloc: Global, lines: &[String]) -> Result<Vec<u8>, AllocError> {
    let mut text = Vec::new(alloc);
    for line in lines {
        let (word, rest) = cut(line.as_str());
        if word == "<" {
            add_line(&mut text, rest)?;
        } else if word == "<*" {
            add_long_line(alloc, &mut text, rest)?;
        } else if word == "in" {
            text.extend_from_slice(&bytes_of(alloc, rest)?)?;
        }
    }
    Ok(text)
}

/// The line of a refusal that a row wants in the second sink.
pub(crate) fn said(alloc: Global, lines: &[String]) -> Result<Vec<u8>, AllocError> {
    let mut text = Vec::new(alloc);
    for line in lines {
        let (word, rest) = cut(line.as_str());
        if word == "!" {
            add_line(&mut text, rest)?;
        } else if word == "!/" {
            text.extend_from_slice(rest.as_bytes())?;
        }
    }
    Ok(text)
}

/// The text that a row wants: the lines with one mark, one with the other, which has no end of a line, and the bytes of
/// a dump.
pub(crate) fn text(alloc: Global, lines: &[String]) -> Result<Vec<u8>, AllocError> {
    let mut text = Vec::new(alloc);
    for line in lines {
        let (word, rest) = cut(line.as_str());
        if word == ">" {
            add_line(&mut text, rest)?;
        } else if word == ">*" {
            add_long_line(alloc, &mut text, rest)?;
        } else if word == ">/" {
            text.extend_from_slice(rest.as_bytes())?;
        } else if word == "out" {
            text.extend_from_slice(&bytes_of(alloc, rest)?)?;
        }
    }
    Ok(text)
}
