//! Pieces of text.

ghost use Rattle.std.specs.Prelude.{◌≡◌, ◌++◌, IfOk, OnOk, codes, decimal};
ghost use Rattle.fault_marks.specs.Texts.{fault_line};

use script_text::ScriptFault;
use std::alloc::{AllocError, Global};

/// Puts a number behind the text.
pub(crate) fn add_number(out: &mut Vec<u8>, number: u64) -> Result<(), AllocError>
    ensures { OnOk result (out.new.items ≡ out.old.items ++ decimal number) }
{
    let mut buffer = itoa::Buffer::new();
    out.extend_from_slice(buffer.format(number).as_bytes())
}

/// The line of a fault: its line, its number and its name.
pub(crate) fn fault_line(alloc: Global, fault: ScriptFault) -> Result<Vec<u8>, AllocError>
    ensures { IfOk result (λ v. v.items ≡ fault_line fault) }
{
    let mut out = Vec::new(alloc);
    out.extend_from_slice(b"script ")?;
    add_number(&mut out, u64::from(fault.line))?;
    out.extend_from_slice(b" ")?;
    add_number(&mut out, u64::from(fault.kind.number()))?;
    out.extend_from_slice(b" ")?;
    out.extend_from_slice(fault.kind.name().as_bytes())?;
    out.extend_from_slice(b"\n")?;
    Ok(out)
}
