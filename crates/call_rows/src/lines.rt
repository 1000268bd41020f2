//! The lines of a row by their first words, their marks.

use std::alloc::{AllocError, Global};
use test_table::{add_line, cut, is_one_of};

/// The marks that a line may have.
const MARKS: &str =
    "$ : :/ spaces script source-fails store-fails sink-fails room put cut more answer again each \
                     bytes read-only status > >/ has sends same x kept length holds";

/// Whether a line may have this mark.
pub(crate) fn is_mark(word: &str) -> bool {
    is_one_of(word, MARKS)
}

/// The text of the lines with this mark, and of one with the other mark, which has no end of a line.
pub(crate) fn text(
    alloc: Global,
    lines: &[String],
    mark: &str,
    open: &str,
) -> Result<Vec<u8>, AllocError> {
    let mut text = Vec::new(alloc);
    for line in lines {
        let (word, rest) = cut(line.as_str());
        if word == mark {
            add_line(&mut text, rest)?;
        } else if word == open {
            text.extend_from_slice(rest.as_bytes())?;
        }
    }
    Ok(text)
}
