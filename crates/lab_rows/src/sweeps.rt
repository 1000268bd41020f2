//! Calls whose source, one of whose stores or whose sink fails at each of its calls in turn, or whose sink has a byte
//! more room each time.

use crate::calls::{Came, came_over};
use crate::images::Images;
use crate::lines::text;
use crate::wanted::add_call;
use std::alloc::{AllocError, Global};
use test_table::{add_line, behind};

/// What a row's call comes to with one more line.
fn came_with(
    alloc: Global,
    lines: &[String],
    line: String,
    table: &Images,
) -> Result<Came, AllocError> {
    let mut all = Vec::new(alloc);
    all.push(line)?;
    for line in lines {
        all.push(String::from_str(alloc, line.as_str())?)?;
    }
    came_over(alloc, &all, table)
}

/// Whether a beginning of the text was written, which isn't all of it.
fn is_beginning(came: &Came, whole: &[u8]) -> bool {
    came.text.len() < whole.len() && whole.starts_with(&came.text)
}

/// Whether the call wrote this line of a refusal, and no text.
fn is_refused(came: &Came, line: &[u8]) -> bool {
    came.text.is_empty() && came.said.as_slice() == line
}

/// Whether the call came to what it comes to where this fails: a beginning of the text, of `at` bytes where room is
/// counted, or the line that says that the source failed, or the store as the image was opened or written.
fn is_cut(came: &Came, whole: &[u8], mark: &str, at: usize) -> bool {
    let is_begun = came.said.is_empty() && is_beginning(came, whole);
    if mark == "store-fails" || mark == "second-fails" {
        return came.status == 5 && (is_refused(came, b"rig fault\n") || is_begun);
    }
    if mark == "source-fails" {
        return came.status == 7 && is_refused(came, b"read fault\n");
    }
    came.status == 8 && is_begun && (mark != "room" || came.text.len() == at)
}

/// Makes a row's calls until nothing fails. Adds what came otherwise than the row says in the last.
pub(crate) fn add_sweep(
    alloc: Global,
    others: &mut Vec<u8>,
    lines: &[String],
    table: &Images,
) -> Result<(), AllocError> {
    let mark = behind(lines, "each");
    let whole = text(alloc, lines)?;
    let first = if mark == "room" { 0usize } else { 1 };
    for at in first..=whole.len() {
        let line = format!(in alloc; "{mark} {at}")?;
        let came = came_with(alloc, lines, line, table)?;
        if !is_cut(&came, &whole, mark, at) {
            if at == first {
                add_line(others, "never cut short")?;
            }
            return add_call(alloc, others, lines, &came);
        }
    }
    add_line(others, "never whole")
}
