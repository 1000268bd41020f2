//! Scripts read, made from a number, and printed.

ghost use Rattle.std.specs.Prelude.{◌≤◌};

use script_text::{big_script, print_script, read_script};
use std::alloc::{AllocError, Global};

/// 0 where the text is a script, else the number of the line at fault; none for want of memory.
pub(crate) fn line_at_fault(alloc: Global, text: &[u8]) -> Option<u32> {
    match read_script(alloc, text) {
        Ok(_) => Some(0),
        Err(fault) if fault.kind.number() == 255 => None,
        Err(fault) => Some(fault.line),
    }
}

/// How many lines a script of so many ops from this seed has.
pub(crate) fn lines_made(alloc: Global, n: u32, seed: u32) -> Result<usize, AllocError>
    requires { n ≤ 1024 }
{
    let script = big_script(alloc, n, seed)?;
    Ok(script.lines.as_slice().len())
}

/// How many bytes are printed of it.
pub(crate) fn bytes_printed(alloc: Global, n: u32, seed: u32) -> Result<usize, AllocError>
    requires { n ≤ 1024 }
{
    let script = big_script(alloc, n, seed)?;
    let text = print_script(alloc, &script)?;
    Ok(text.as_slice().len())
}
