//! What comes of a row.

ghost use Rattle.run_command.specs.Working.{IsSound};

use crate::answers::answers_by;
use crate::image::Image;
use crate::row::{Row, add_line};
use call_refusal::Refusal;
use dix_base::MemSink;
use mirror_command::{print_mirrored, run_mirror};
use report_text::{print_report, print_trace};
use rig_api::Rig;
use run_command::{Finished, run_script};
use script_laws::a_read_script_keeps_the_rules;
use script_text::{Script, ScriptFault, read_script};
use std::alloc::{AllocError, Global};
use test_rig::ScriptedRig;

/// The most bytes of a report or a trace.
const ROOM: u32 = 100_000;

/// What stands before each report.
const FRONT: usize = b"dix report 1\n".len();

/// The report of a run behind its first line, or why there was none, and the records behind those of discovery.
#[derive(Drop)]
pub(crate) struct Came {
    pub(crate) report: Vec<u8>,
    pub(crate) trace: Vec<u8>,
}

/// A fault of a script, as the program names it.
fn fault_text(alloc: Global, fault: ScriptFault) -> Result<Vec<u8>, AllocError> {
    let line = fault.line;
    let number = fault.kind.number();
    let name = fault.kind.name();
    let text = format!(in alloc; "script {line} {number} {name}")?;
    let mut bytes = Vec::new(alloc);
    add_line(&mut bytes, text.as_str())?;
    Ok(bytes)
}

fn report_of(alloc: Global, run: &Finished) -> Result<Vec<u8>, AllocError> {
    let mut sink = MemSink::new(alloc, ROOM, Vec::new(alloc))?;
    let _ = print_report(&mut sink, run.stack.replies());
    Vec::from_slice(alloc, sink.bytes().get(FRONT..).unwrap_or(&[]))
}

fn trace_of<R: Rig>(alloc: Global, rig: &R) -> Result<Vec<u8>, AllocError> {
    let mut sink = MemSink::new(alloc, ROOM, Vec::new(alloc))?;
    let _ = print_trace(&mut sink, rig, rig.devices().min(rig.records()));
    Vec::from_slice(alloc, sink.bytes())
}

/// Why a script isn't run.
fn refusal_text(alloc: Global, refusal: Refusal) -> Result<Vec<u8>, AllocError> {
    match refusal {
        Refusal::Script(fault) => fault_text(alloc, fault),
        Refusal::BadCapacity { .. } => Vec::from_slice(alloc, b"device\n"),
        Refusal::Volume { .. } => Vec::from_slice(alloc, b"volume\n"),
        Refusal::Memory => Vec::from_slice(alloc, b"memory\n"),
        Refusal::Image(_) | Refusal::RigFault => Vec::from_slice(alloc, b"image\n"),
        Refusal::ReadFault => Vec::from_slice(alloc, b"source\n"),
    }
}

/// What comes of a script on a mirror over a rig that isn't opened.
fn mirrored<R: Rig>(alloc: Global, script: Script, rig: &mut R) -> Result<Vec<u8>, AllocError>
    requires { IsSound script }
{
    let run = match run_mirror(alloc, "a", script, rig) {
        Ok(run) => run,
        Err(refusal) => return refusal_text(alloc, refusal),
    };
    let mut sink = MemSink::new(alloc, ROOM, Vec::new(alloc))?;
    let _ = print_mirrored(&mut sink, &run);
    Vec::from_slice(alloc, sink.bytes().get(FRONT..).unwrap_or(&[]))
}

/// What comes of a script over a rig that isn't opened.
fn ran<R: Rig>(alloc: Global, script: Script, rig: &mut R) -> Result<Vec<u8>, AllocError>
    requires { IsSound script }
{
    match run_script(alloc, "a", script, rig) {
        Ok(run) => report_of(alloc, &run),
        Err(refusal) => refusal_text(alloc, refusal),
    }
}

/// What comes of a text over a rig that isn't opened.
fn came_over<R: Rig>(
    alloc: Global,
    text: &[u8],
    is_mirror: bool,
    rig: &mut R,
) -> Result<Came, AllocError> {
    let script = match read_script(alloc, text) {
        Ok(script) => script,
        Err(fault) => {
            return Ok(Came {
                report: fault_text(alloc, fault)?,
                trace: Vec::new(alloc),
            });
        }
    };
    a_read_script_keeps_the_rules(text, &script);
    let report = if is_mirror {
        mirrored(alloc, script, rig)?
    } else {
        ran(alloc, script, rig)?
    };
    let trace = trace_of(alloc, rig)?;
    Ok(Came { report, trace })
}

/// What comes of a row over an image.
pub(crate) fn came_of(alloc: Global, image: &Image, row: &Row) -> Result<Came, AllocError> {
    let mut rig = image.laid(alloc, &row.fails)?;
    if row.rules.is_empty() {
        return came_over(alloc, &row.script, row.is_mirror, &mut rig);
    }
    let answers = answers_by(alloc, &image.units, &row.rules)?;
    let mut lying = ScriptedRig::new(alloc, rig, answers);
    came_over(alloc, &row.script, row.is_mirror, &mut lying)
}
