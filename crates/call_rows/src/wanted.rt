//! What a row wants, against what came.

use crate::calls::Came;
use crate::lines::text;
use std::alloc::{AllocError, Global};
use std::str;
use test_table::{add_line, behind, bytes_of, cut, has, hex_of, number, status_wanted};

/// Whether a text has this line.
fn has_line(text: &str, line: &str) -> bool {
    for found in text.split('\n') {
        if found == line {
            return true;
        }
    }
    false
}

/// How many lines of a text are records.
fn records_in(text: &str) -> u64 {
    let mut count = 0u64;
    for line in text.split('\n') {
        let (word, _) = cut(line);
        if word == "x" {
            count = count.saturating_add(1);
        }
    }
    count
}

/// Whether the text is as a row says that doesn't have it whole.
fn is_in_part(lines: &[String], came: &[u8], last: &[u8]) -> bool {
    let text = str::from_utf8(came).unwrap_or("");
    (!has(lines, "same") || came == last)
        && (!has(lines, "has") || has_line(text, behind(lines, "has")))
        && (!has(lines, "sends") || records_in(text) == number(behind(lines, "sends")))
}

fn is_text_wanted(
    alloc: Global,
    lines: &[String],
    came: &[u8],
    last: &[u8],
) -> Result<bool, AllocError> {
    if has(lines, "same") || has(lines, "has") || has(lines, "sends") {
        return Ok(is_in_part(lines, came, last));
    }
    Ok(came == text(alloc, lines, ">", ">/")?.as_slice())
}

/// The records that a row wants.
fn records_wanted(alloc: Global, lines: &[String]) -> Result<Vec<u8>, AllocError> {
    let mut text = Vec::new(alloc);
    for line in lines {
        let (word, rest) = cut(line.as_str());
        if word == "x" && rest != "" {
            add_line(&mut text, line.as_str())?;
        }
    }
    Ok(text)
}

/// The bytes that stand in the image where a line says, as many as it says.
fn found_at<'a>(image: &'a [u8], at: &str, count: usize) -> &'a [u8] {
    let rest = image.get(number(at) as usize..).unwrap_or(&[]);
    rest.get(..count).unwrap_or(rest)
}

/// What stands in the image otherwise than a line `holds` says.
fn add_held(
    alloc: Global,
    others: &mut Vec<u8>,
    rest: &str,
    image: &[u8],
) -> Result<(), AllocError> {
    let (at, digits) = cut(rest);
    let wanted = bytes_of(alloc, digits)?;
    let found = found_at(image, at, wanted.len());
    if wanted.is_empty() || found != wanted.as_slice() {
        let came = hex_of(alloc, found)?;
        let text = format!(in alloc; "holds {at} {came}")?;
        add_line(others, text.as_str())?;
    }
    Ok(())
}

fn add_all_held(
    alloc: Global,
    others: &mut Vec<u8>,
    lines: &[String],
    image: &[u8],
) -> Result<(), AllocError> {
    for line in lines {
        let (word, rest) = cut(line.as_str());
        if word == "holds" {
            add_held(alloc, others, rest, image)?;
        }
    }
    Ok(())
}

/// What came of the image otherwise than a row says.
pub(crate) fn add_image(
    alloc: Global,
    others: &mut Vec<u8>,
    lines: &[String],
    before: &[u8],
    image: &[u8],
) -> Result<(), AllocError> {
    add_all_held(alloc, others, lines, image)?;
    if has(lines, "kept") && image != before {
        add_line(others, "not kept")?;
    }
    let length = image.len();
    if has(lines, "length") && number(behind(lines, "length")) != length as u64 {
        let text = format!(in alloc; "length {length}")?;
        add_line(others, text.as_str())?;
    }
    Ok(())
}

/// Adds a text that came, or a line that there is none.
fn add_came(others: &mut Vec<u8>, text: &[u8], none: &str) -> Result<(), AllocError> {
    if text.is_empty() {
        add_line(others, none)
    } else {
        others.extend_from_slice(text)
    }
}

/// What came otherwise than a row says, but for the image.
pub(crate) fn add_call(
    alloc: Global,
    others: &mut Vec<u8>,
    lines: &[String],
    came: &Came,
    last: &[u8],
) -> Result<(), AllocError> {
    let status = came.status;
    if u64::from(status) != status_wanted(lines) {
        let text = format!(in alloc; "status {status}")?;
        add_line(others, text.as_str())?;
    }
    if !is_text_wanted(alloc, lines, &came.text, last)? {
        add_came(others, &came.text, "no text")?;
    }
    if has(lines, "x") && came.records.as_slice() != records_wanted(alloc, lines)?.as_slice() {
        add_came(others, &came.records, "no records")?;
    }
    Ok(())
}
