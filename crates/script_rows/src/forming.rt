//! Scripts by the form of their faults and ops.

use run_premises::{accounts_by_form, escapes_none, shows_by_form};
use script_text::{Script, read_script};
use std::alloc::{AllocError, Global};

/// Whether each fault is shown by its form.
fn shown(alloc: Global, script: &Script) -> Result<bool, AllocError> {
    shows_by_form(
        alloc,
        script.mode.kind,
        script.block,
        &script.faults,
        &script.ops,
    )
}

/// Whether each fault is accounted for by its form.
fn known(alloc: Global, script: &Script) -> Result<bool, AllocError> {
    accounts_by_form(
        alloc,
        script.mode.kind,
        script.block,
        &script.faults,
        &script.ops,
    )
}

/// What is said of faults that are shown by their form or not, and accounted for by it or not.
fn word_for(shown: bool, known: bool) -> &'static str {
    match (shown, known) {
        (true, true) => "shown",
        (false, true) => "known",
        (true, false) => "shown alone",
        (false, false) => "open",
    }
}

/// Whether the faults of a text's script are shown or accounted for by their form, and whether its ops may supply an escape.
pub(crate) fn formed_row(alloc: Global, text: &[u8]) -> Result<String, AllocError> {
    let Ok(script) = read_script(alloc, text) else {
        return String::from_str(alloc, "not read");
    };
    let faults = word_for(shown(alloc, &script)?, known(alloc, &script)?);
    let escapes = if escapes_none(&script.ops) {
        "no escape"
    } else {
        "escapes"
    };
    format!(in alloc; "{faults}, {escapes}")
}
