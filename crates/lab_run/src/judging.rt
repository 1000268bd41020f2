//! Judging a script, or a list of commands.

ghost use Rattle.call_verdict.specs.Verdicts.{IsPassedOn};
ghost use Rattle.std.specs.Prelude.{◌≡◌, ℕ, Err, List, Ok, Some, IfOk};
ghost use Rattle.dix_base.specs.Stores.{StoreState};
ghost use Rattle.lab_run.specs.declared.command.Command.{Command};
ghost use Rattle.rig_api.specs.State.{RigState};
ghost use Rattle.script_lines.specs.declared.kind.ScriptKind.{ScriptKind};
ghost use Rattle.script_text.specs.Language.{script_in};
ghost use Rattle.call_verdict.specs.Words.{word_bytes};
ghost use Rattle.lab_run.specs.Calls.{on_input};
ghost use Rattle.lab_run.specs.Commands.{Came};
ghost use Rattle.lab_run.specs.Judging.{AsList, AsScript, Judges, Says, is_short_list, reads_of};
ghost use Rattle.vector_lines.specs.Texts.{list_in};

use crate::refusal::Refusal;
use call_refusal::{Refusal as Stop, TOO_LONG};
use call_verdict::{Status, finish};
use dix_base::{MOST_BYTES, Sink, Source, Unread, read_all};
use fault_marks::{list_text, marked_text, right_text};
use run_words::vectors_text;
use script_laws::a_read_script_keeps_the_rules;
use script_text::{Script, ScriptFault, ScriptKind, read_script};
use std::alloc::{AllocError, Global};
use vector_lines::{VectorLine, is_list, read_list};

/// What is said of a text, and the status that goes with it.
#[derive(Drop)]
pub(crate) struct Said {
    pub(crate) text: Vec<u8>,
    pub(crate) status: Status,
}

/// What is said of a script's text with this fault, or want of memory.
fn of_fault(alloc: Global, text: &[u8], fault: ScriptFault) -> Result<Said, AllocError>
    requires { script_in text.now ≡ Err fault }
    ensures { Says (AsScript (script_in text.now)) text.now result }
{
    Ok(Said {
        text: marked_text(alloc, text, fault)?,
        status: Status::Input,
    })
}

/// What is said of the text of this script, or want of memory.
fn of_script(alloc: Global, text: &[u8], script: &Script) -> Result<Said, AllocError>
    requires { script_in text.now ≡ Ok script.now }
    ensures { Says (AsScript (script_in text.now)) text.now result }
{
    a_read_script_keeps_the_rules(text, script);
    Ok(Said {
        text: right_text(alloc, script)?,
        status: Status::Whole,
    })
}

/// What is said of a text that is read as a script, or want of memory.
fn of_text(alloc: Global, text: &[u8]) -> Result<Said, AllocError>
    ensures { Says (AsScript (script_in text.now)) text.now result }
{
    match read_script(alloc, text) {
        Ok(script) => of_script(alloc, text, &script),
        Err(
            ScriptFault {
                line: _,
                kind: ScriptKind::Memory,
            },
        ) => Err(AllocError),
        Err(fault) => of_fault(alloc, text, fault),
    }
}

/// What is said of a list's text with this fault, or want of memory.
fn of_list_fault(alloc: Global, text: &[u8], fault: ScriptFault) -> Result<Said, AllocError>
    requires { list_in text.now ≡ Err fault }
    ensures { Says (AsList (list_in text.now)) text.now result }
{
    Ok(Said {
        text: list_text(alloc, text, fault)?,
        status: Status::Input,
    })
}

/// What is said of the text of these commands, or want of memory.
fn of_lines(alloc: Global, text: &[u8], lines: &[VectorLine]) -> Result<Said, AllocError>
    requires { list_in text.now ≡ Ok lines.now }
    ensures { Says (AsList (list_in text.now)) text.now result }
{
    let _text = text;
    Ok(Said {
        text: vectors_text(alloc, lines)?,
        status: Status::Whole,
    })
}

/// What is said of a text that is read as a list, or want of memory.
fn of_list(alloc: Global, text: &[u8]) -> Result<Said, AllocError>
    ensures { Says (AsList (list_in text.now)) text.now result }
{
    match read_list(alloc, text) {
        Ok(lines) => of_lines(alloc, text, &lines),
        Err(
            ScriptFault {
                line: _,
                kind: ScriptKind::Memory,
            },
        ) => Err(AllocError),
        Err(fault) => of_list_fault(alloc, text, fault),
    }
}

/// Whether a text is a list of commands that isn't too long.
fn is_short_list(text: &[u8]) -> bool
    ensures { result ≡ is_short_list text.now }
{
    text.len() <= MOST_BYTES && is_list(text)
}

/// What is said of a text, or want of memory.
fn said_of(alloc: Global, text: &[u8]) -> Result<Said, AllocError>
    ensures { Says (reads_of text.now) text.now result }
{
    if is_short_list(text) {
        of_list(alloc, text)
    } else {
        of_text(alloc, text)
    }
}

/// What is said of a text that is too long, which isn't kept, or want of memory.
fn said_of_long(alloc: Global) -> Result<Said, AllocError>
    ensures { (text : List ℕ) → Says (AsScript (Err (record { line = 0; kind = ScriptKind.TooMany }))) text result }
{
    Ok(Said {
        text: marked_text(alloc, &[], TOO_LONG)?,
        status: Status::Input,
    })
}

/// What is said of the text that the source gives.
fn judged<S: Source>(alloc: Global, input: &mut S) -> Result<Said, Refusal>
    ensures { Judges result (S.left input.old) (S.left input.new) (S.faults input.old) (S.faults input.new) }
{
    match read_all(alloc, input) {
        Ok(text) => Ok(said_of(alloc, &text)?),
        Err(Unread::TooMany) => Ok(said_of_long(alloc)?),
        Err(Unread::Failed) => Err(Refusal::Stopped(Stop::ReadFault)),
        Err(Unread::Memory) => Err(Refusal::MEMORY),
    }
}

/// `explain`: judges the script or the list of commands that the source gives.
pub(crate) fn judge<S: Source, O: Sink>(
    alloc: Global,
    words: &[String],
    input: &mut S,
    out: &mut O,
) -> Result<Status, Refusal>
    ensures came { (h : StoreState) (rig : RigState) (second : StoreState) → Came (Some Command.Judge) result
        (on_input (word_bytes words.now) h h (S.left input.old) (S.left input.new) (S.faults input.old) (S.faults input.new) rig second)
        (O.taken out.old) (O.taken out.new) (O.faults out.old) (O.faults out.new) }
    ensures handed { IfOk result (λ status. IsPassedOn status (O.passed out.new) (O.taken out.new)) }
{
    let _words = words;
    let said = judged(alloc, input)?;
    Ok(finish(out, &said.text, said.status))
}
