//! Which premises of the theorems a script meets by its form.

ghost use Rattle.std.specs.Prelude.{◌≡◌, ◌++◌, get_or, length, IfOk, OnOk, Some};
ghost use Rattle.fault_marks.specs.Premises.{calm_at, escape_at, fault_line_at, known_at, op_line_at, overwrite_at, premise_line, premise_lines, shown_at};
ghost use Rattle.run_premises.specs.Forms.{good_lines, known_lines};

use crate::texts::add_number;
use run_premises::{
    accounts_by_form, escapes_none, first_escape, first_overwrite, formed_lines, shows_by_form,
};
use script_text::Script;
use std::alloc::{AllocError, Global};

/// The number of the line of this fault line, counted from 0, or of an op, counted behind them.
fn line_number(script: &Script, i: usize) -> u32
    ensures { result ≡ get_or script.now.lines i 0 }
{
    match script.lines.as_slice().get(i) {
        Some(number) => *number,
        None => 0,
    }
}

/// The line of a fault line, if there is such a one.
fn fault_line_at(script: &Script, i: usize) -> Option<u32>
    ensures { result ≡ fault_line_at script.now i }
{
    if i == script.faults.as_slice().len() {
        return None;
    }
    Some(line_number(script, i))
}

/// The line of an op.
fn op_line_at(script: &Script, op: Option<usize>) -> Option<u32>
    ensures { result ≡ op_line_at script.now op }
{
    let faults = script.faults.as_slice().len();
    match op {
        Some(k) => Some(line_number(script, faults.saturating_add(k))),
        None => None,
    }
}

/// The first line that overwrites a stored block.
fn overwrite_at(script: &Script) -> Option<u32>
    ensures { result ≡ overwrite_at script.now }
{
    op_line_at(script, first_overwrite(&script.ops))
}

/// The first line that alters anything.
fn calm_at(script: &Script) -> Option<u32>
    ensures { result ≡ calm_at script.now }
{
    match fault_line_at(script, 0) {
        Some(line) => Some(line),
        None => overwrite_at(script),
    }
}

/// The first line whose fault may stay hidden from tuples.
fn shown_at(alloc: Global, script: &Script) -> Result<Option<u32>, AllocError>
    ensures { IfOk result (λ line. line ≡ shown_at script.now) }
{
    let (kind, faults, ops) = (script.mode.kind, &script.faults, &script.ops);
    if shows_by_form(alloc, kind, script.block, faults, ops)? {
        return Ok(None);
    }
    let formed = formed_lines(alloc, kind, script.block, faults, ops)?;
    match fault_line_at(script, formed.shown) {
        Some(line) => Ok(Some(line)),
        None => Ok(overwrite_at(script)),
    }
}

/// The first line whose fault isn't accounted for.
fn known_at(alloc: Global, script: &Script) -> Result<Option<u32>, AllocError>
    ensures { IfOk result (λ line. line ≡ known_at script.now) }
{
    let (kind, faults, ops) = (script.mode.kind, &script.faults, &script.ops);
    if accounts_by_form(alloc, kind, script.block, faults, ops)? {
        return Ok(None);
    }
    let formed = formed_lines(alloc, kind, script.block, faults, ops)?;
    match fault_line_at(script, formed.known) {
        Some(line) => Ok(Some(line)),
        None => Ok(overwrite_at(script)),
    }
}

/// The first line that may supply an escape.
fn escape_at(script: &Script) -> Option<u32>
    ensures { result ≡ escape_at script.now }
{
    if escapes_none(&script.ops) {
        return None;
    }
    op_line_at(script, first_escape(&script.ops))
}

/// Puts the line of a premise behind the text: whether it holds, or at which line of the script it doesn't.
fn add_premise(out: &mut Vec<u8>, name: &[u8], line: Option<u32>) -> Result<(), AllocError>
    ensures { OnOk result (out.new.items ≡ out.old.items ++ premise_line name.now line) }
{
    out.extend_from_slice(name)?;
    let Some(number) = line else {
        return out.extend_from_slice(b" yes\n");
    };
    out.extend_from_slice(b" no line ")?;
    add_number(out, u64::from(number))?;
    out.extend_from_slice(b"\n")
}

/// Puts behind the text which premises of the theorems the script meets.
pub(crate) fn add_premises(
    alloc: Global,
    out: &mut Vec<u8>,
    script: &Script,
) -> Result<(), AllocError>
    ensures { OnOk result (out.new.items ≡ out.old.items ++ premise_lines script.now) }
{
    let shown = shown_at(alloc, script)?;
    let known = known_at(alloc, script)?;
    add_premise(out, b"calm", calm_at(script))?;
    add_premise(out, b"shown", shown)?;
    add_premise(out, b"known", known)?;
    add_premise(out, b"unescaped", escape_at(script))
}
