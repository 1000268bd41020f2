//! The lines of NVM commands.

use nvme_command::{NvmLine, read_lines};
use std::alloc::{AllocError, Global};

/// Adds the number of a line, the first byte of its command, its fill and how many bytes its metadata has.
fn add_line(alloc: Global, text: &mut String, line: &NvmLine) -> Result<(), AllocError> {
    let opcode = line.sqe[0];
    let bytes = line.meta.as_slice().len();
    let part = format!(in alloc; ", {}: {opcode} {} {bytes}", line.number, line.fill)?;
    text.push_str(part.as_str())
}

/// How many lines are read of a text, and the first two of them; or the line of its first fault, and what it is.
pub(crate) fn lines_row(alloc: Global, text: &[u8]) -> Result<String, AllocError> {
    let lines = match read_lines(alloc, text) {
        Ok(lines) => lines,
        Err(fault) => {
            let number = fault.kind.number();
            return format!(in alloc; "fault {} {number}", fault.line);
        }
    };
    let count = lines.len();
    let mut text = format!(in alloc; "{count}")?;
    for line in lines.iter().take(2) {
        add_line(alloc, &mut text, line)?;
    }
    Ok(text)
}
