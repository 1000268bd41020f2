//! Texts that are read and printed.

use script_laws::{a_read_script_keeps_the_rules, read_back};
use script_text::{Script, ScriptFault, print_script, read_script};
use std::alloc::{AllocError, Global};

/// A fault: its line, and the number and the name of what is wrong.
fn fault_text(alloc: Global, fault: ScriptFault) -> Result<String, AllocError> {
    let number = fault.kind.number();
    let name = fault.kind.name();
    format!(in alloc; "{} {number} {name}", fault.line)
}

/// The fault that was found, or ok.
pub(crate) fn judged(alloc: Global, found: Result<(), ScriptFault>) -> Result<String, AllocError> {
    match found {
        Ok(()) => String::from_str(alloc, "ok"),
        Err(fault) => fault_text(alloc, fault),
    }
}

/// The fault of a text, or ok.
pub(crate) fn read_row(alloc: Global, text: &[u8]) -> Result<String, AllocError> {
    match read_script(alloc, text) {
        Ok(_) => judged(alloc, Ok(())),
        Err(fault) => judged(alloc, Err(fault)),
    }
}

/// Yes, where a text is the one that is wanted; else the text.
pub(crate) fn wanted(alloc: Global, text: &[u8], want: &[u8]) -> Result<String, AllocError> {
    if text == want {
        return String::from_str(alloc, "yes");
    }
    String::from_str(alloc, str::from_utf8(text).unwrap_or("?"))
}

/// Whether a text is printed as is wanted, and again once what was printed is read.
pub(crate) fn printed_row(alloc: Global, text: &[u8], want: &[u8]) -> Result<String, AllocError> {
    let Ok(script) = read_script(alloc, text) else {
        return String::from_str(alloc, "not read");
    };
    a_read_script_keeps_the_rules(text, &script);
    let Ok(back) = read_back(alloc, &script) else {
        return String::from_str(alloc, "not read back");
    };
    if print_script(alloc, &back)?.as_slice() != want {
        return String::from_str(alloc, "another comes back");
    }
    wanted(alloc, print_script(alloc, &script)?.as_slice(), want)
}

/// The lines of a script's faults and ops, that of the tag that is expected, or 0, and the block size.
pub(crate) fn numbers_text(alloc: Global, script: &Script) -> Result<String, AllocError> {
    let mut text = String::from_str(alloc, "lines")?;
    for line in script.lines.as_slice() {
        let part = format!(in alloc; " {line}")?;
        text.push_str(part.as_str())?;
    }
    let part = format!(in alloc; ", tag {}, blocks of {}", script.expect_line, script.block)?;
    text.push_str(part.as_str())?;
    Ok(text)
}

/// The numbers of a text's script.
pub(crate) fn numbers_row(alloc: Global, text: &[u8]) -> Result<String, AllocError> {
    match read_script(alloc, text) {
        Ok(script) => numbers_text(alloc, &script),
        Err(fault) => fault_text(alloc, fault),
    }
}
