//! The run of a script that is explained.

ghost use Rattle.std.specs.Prelude.{◌≡◌, ◌≤◌, Err, IfErr, IfOk, List, MatchResult, length, ℕ};
ghost use Rattle.fault_marks.specs.Entries.{misfit_text};
ghost use Rattle.fault_marks.specs.Texts.{marked_text};
ghost use Rattle.script_lines.specs.declared.kind.ScriptKind.{ScriptKind};
ghost use Rattle.script_text.specs.Language.{script_in};
ghost use Rattle.run_command.specs.Verdict.{Facts};
ghost use Rattle.run_command.specs.Working.{IsSound};
ghost use Rattle.run_words.specs.Ledgers.{IsNew};
ghost use Rattle.run_words.specs.Sites.{IsGuideOf};
ghost use Rattle.run_words.specs.Explained.{CauseUnexplained, CauseUnrun, ExplainsText, HasExplained, IsComplete, IsHaltOf, IsMisfitSaid, IsSaid, WasExplained};

use crate::guide::Guide;
use crate::ledger::Ledger;
use call_refusal::{Refusal, TOO_LONG};
use dix_base::{Source, Unread, read_all};
use fault_marks::{marked_text, misfit_text};
use rig_api::Rig;
use run_command::{Finished, run_script};
use script_laws::a_read_script_keeps_the_rules;
use script_text::{Script, ScriptFault, ScriptKind, read_script};
use std::alloc::{AllocError, Global};
use volume_table::VolumeKind;

/// A script that was run to its end, with what tells where its blocks stand and lie.
#[derive(Drop)]
pub struct Explained {
    /// The run.
    pub run: Finished,
    /// The guide of the script.
    pub guide: Guide,
    /// What judges its reads.
    pub ledger: Ledger,
}

/// Why nothing is explained.
#[derive(Drop)]
pub enum Unexplained {
    /// The script is at fault, in its text or over its volume: what is said of it.
    Marked(Vec<u8>),
    /// An entry of the script's volume doesn't fit the devices: what is said of it.
    Misfit(Vec<u8>),
    /// It comes to no run for another reason.
    Refused(Refusal),
}

/// What is said of a text with this fault, or that there is no memory.
fn marked(alloc: Global, text: &[u8], fault: ScriptFault) -> Unexplained
    ensures { IsSaid result (marked_text text.now fault) }
{
    match marked_text(alloc, text, fault) {
        Ok(said) => Unexplained::Marked(said),
        Err(_) => Unexplained::Refused(Refusal::Memory),
    }
}

/// What is said of a text that has this fault, or that there is no memory.
fn marked_fault(alloc: Global, text: &[u8], fault: ScriptFault) -> Unexplained
    requires { script_in text.now ≡ Err fault }
    ensures said { IsSaid result (marked_text text.now fault) }
    ensures reads { script_in text.now ≡ Err fault }
{
    marked(alloc, text, fault)
}

/// What is said of a text that is too long, which isn't kept, or that there is no memory.
fn marked_long(alloc: Global) -> Unexplained
    ensures { (text : List ℕ) → IsSaid result (marked_text text (record { line = 0; kind = ScriptKind.TooMany })) }
{
    marked(alloc, &[], TOO_LONG)
}

/// What is said of an entry of the text's volume that doesn't fit the devices, or that there is no memory.
fn misfit(alloc: Global, text: &[u8], entry: u32, kind: VolumeKind) -> Unexplained
    ensures { IsMisfitSaid result (misfit_text text.now entry kind) }
{
    match misfit_text(alloc, text, entry, kind) {
        Ok(said) => Unexplained::Misfit(said),
        Err(_) => Unexplained::Refused(Refusal::Memory),
    }
}

/// Why a script that comes to no run isn't explained: its fault is marked.
fn halted(alloc: Global, text: &[u8], refusal: Refusal) -> Unexplained
    ensures { IsHaltOf refusal result text.now }
{
    match refusal {
        Refusal::Script(fault) => marked(alloc, text, fault),
        Refusal::Volume { entry, kind } => misfit(alloc, text, entry, kind),
        _ => Unexplained::Refused(refusal),
    }
}

/// What tells where the blocks of a script stand and lie, and what judges its reads. The one error is want of memory.
fn tools_of(alloc: Global, script: &Script) -> Result<(Guide, Ledger), AllocError>
    requires { IsSound script.now }
    ensures { IfOk result (λ tools. IsGuideOf script.now tools.0 × IsNew script.now tools.1) }
{
    Ok((Guide::of(alloc, script)?, Ledger::of(alloc, script)?))
}

/// Runs the script of a text over the image of this name.
fn explain_script<R: Rig>(
    alloc: Global,
    image: &str,
    text: &[u8],
    script: Script,
    rig: &mut R,
) -> Result<Explained, Unexplained>
    requires { IsSound script }
    ensures verdict { let old = R.state rig.old in
        let new = R.state rig.new in
        MatchResult result (λ e. WasExplained e script image.now old new) (λ u. CauseUnrun u text.now script image.now old new) }
    ensures traced { IfOk result (λ e. e.run.first ≤ length (R.state rig.new).log) }
{
    let (guide, mut ledger) = match tools_of(alloc, &script) {
        Ok(tools) => tools,
        Err(_) => return Err(Unexplained::Refused(Refusal::Memory)),
    };
    match run_script(alloc, image, script, rig) {
        Ok(run) => {
            ledger.keep(rig, run.first);
            Ok(Explained { run, guide, ledger })
        }
        Err(refusal) => Err(halted(alloc, text, refusal)),
    }
}

/// Runs the script of a text, where it is one, over the image of this name.
fn explain_text<R: Rig>(
    alloc: Global,
    image: &str,
    text: &[u8],
    rig: &mut R,
) -> Result<Explained, Unexplained>
    ensures verdict { let old = R.state rig.old in
        let new = R.state rig.new in
        ExplainsText result text.now image.now old new }
    ensures traced { IfOk result (λ e. e.run.first ≤ length (R.state rig.new).log) }
{
    match read_script(alloc, text) {
        Ok(script) => {
            a_read_script_keeps_the_rules(text, &script);
            explain_script(alloc, image, text, script, rig)
        }
        Err(
            ScriptFault {
                line: _,
                kind: ScriptKind::Memory,
            },
        ) => Err(Unexplained::Refused(Refusal::Memory)),
        Err(fault) => Err(marked_fault(alloc, text, fault)),
    }
}

/// Reads the script that the source holds, to its end but no further than one byte more than a script
/// may have, and then runs it over the image of this name. Where the script is at fault, in its text
/// or over its volume, it says what is wrong, and where.
pub fn explain_source<S: Source, R: Rig>(
    alloc: Global,
    image: &str,
    source: &mut S,
    rig: &mut R,
) -> Result<Explained, Unexplained>
    ensures verdict { let f : Facts = record {
      name = image.now;
      left = S.left source.old;
      left_after = S.left source.new;
      reads = S.faults source.old;
      reads_after = S.faults source.new;
      rig = R.state rig.old;
      rig_after = R.state rig.new;
    } in
        MatchResult result (λ e. HasExplained e f) (λ u. CauseUnexplained u f) }
    ensures complete { let f : Facts = record {
      name = image.now;
      left = S.left source.old;
      left_after = S.left source.new;
      reads = S.faults source.old;
      reads_after = S.faults source.new;
      rig = R.state rig.old;
      rig_after = R.state rig.new;
    } in
        IfErr result (λ u. IsComplete u f) }
    ensures traced { IfOk result (λ e. e.run.first ≤ length (R.state rig.new).log) }
    ensures count { S.faults source.old ≤ S.faults source.new }
{
    match read_all(alloc, source) {
        Ok(text) => explain_text(alloc, image, &text, rig),
        Err(Unread::TooMany) => Err(marked_long(alloc)),
        Err(Unread::Failed) => Err(Unexplained::Refused(Refusal::ReadFault)),
        Err(Unread::Memory) => Err(Unexplained::Refused(Refusal::Memory)),
    }
}
