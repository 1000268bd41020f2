//! What a row wants, against what came.

use crate::calls::Came;
use crate::lines::{said, text};
use std::alloc::{AllocError, Global};
use test_table::{add_line, status_wanted};

/// Adds what one sink took, where it isn't what the row wants: the bytes, or what is said of none.
fn add_other(
    others: &mut Vec<u8>,
    came: &[u8],
    wanted: &[u8],
    none: &str,
) -> Result<(), AllocError> {
    if came == wanted {
        return Ok(());
    }
    if came.is_empty() {
        add_line(others, none)?;
    }
    others.extend_from_slice(came)
}

/// What came otherwise than a row says.
pub(crate) fn add_call(
    alloc: Global,
    others: &mut Vec<u8>,
    lines: &[String],
    came: &Came,
) -> Result<(), AllocError> {
    let status = came.status;
    if u64::from(status) != status_wanted(lines) {
        let line = format!(in alloc; "status {status}")?;
        add_line(others, line.as_str())?;
    }
    if !came.is_left {
        add_line(others, "another image")?;
    }
    add_other(others, &came.text, &text(alloc, lines)?, "no text")?;
    add_other(others, &came.said, &said(alloc, lines)?, "no refusal")
}
