//! The whole: source, image, commands.

ghost use Rattle.std.specs.Prelude.{◌≡◌, [], MatchResult, OnOk};
ghost use Rattle.nvme_command.specs.Causes.{CauseClosed, CauseNotDone, CauseUndone, CauseUnread, HasDone, HasLines, HasTold, WereDone};

use crate::fitting::misfit;
use crate::session::{Done, do_lines};
use crate::{NvmLine, front_of, read_lines};
use call_refusal::Refusal;
use dix_base::{Source, read_all};
use fault_schedule::FaultList;
use image_commands::open_image;
use nvme_front::NvmFront;
use rig_api::Rig;
use std::alloc::Global;

/// Reads the source to its end, and its lines.
fn lines_of<S: Source>(alloc: Global, source: &mut S) -> Result<Vec<NvmLine>, Refusal>
    ensures { MatchResult result (λ v. HasLines v.items (S.left source.old) (S.left source.new) (S.faults source.old) (S.faults source.new))
        (λ f. CauseUnread f (S.left source.old) (S.left source.new) (S.faults source.old) (S.faults source.new)) }
{
    let text = read_all(alloc, source)?;
    Ok(read_lines(alloc, &text)?)
}

/// Opens the image of this name and asks its devices what they are. No fault is armed then; after a fault
/// those are that were.
fn open<R: Rig>(alloc: Global, name: &str, rig: &mut R) -> Result<NvmFront, Refusal>
    ensures told { let old = R.state rig.old in
        let new = R.state rig.new in
        MatchResult result (λ f. HasTold name.now f old new) (λ f. CauseClosed f name.now old new) }
    ensures calm { OnOk result ((R.state rig.new).armed ≡ []) }
{
    open_image(alloc, name, rig)?;
    let front = front_of(alloc, rig)?;
    rig.arm(FaultList::from_vec(Vec::new(alloc)));
    Ok(front)
}

/// Does the commands of these lines on the image of this name.
fn do_opened<R: Rig>(
    alloc: Global,
    name: &str,
    lines: &[NvmLine],
    rig: &mut R,
) -> Result<Done, Refusal>
    ensures { let old = R.state rig.old in
        let new = R.state rig.new in
        MatchResult result (λ d. HasDone name.now lines.now d.text.items d.bad old new) (λ f. CauseUndone f name.now lines.now old new) }
{
    let mut front = open(alloc, name, rig)?;
    match misfit(&front, lines) {
        None => {}
        Some(fault) => return Err(Refusal::Script(fault)),
    }
    Ok(do_lines(alloc, &mut front, lines, rig)?)
}

/// Reads the source to its end, opens the image of this name, asks its devices what they are, and does
/// the command of each line.
///
/// All lines are judged before the image is opened, and their metadata before the first command is
/// done. After want of memory some of the commands may be done.
pub fn do_commands<S: Source, R: Rig>(
    alloc: Global,
    name: &str,
    source: &mut S,
    rig: &mut R,
) -> Result<Done, Refusal>
    ensures { let old = R.state rig.old in
        let new = R.state rig.new in
        MatchResult result (λ d. WereDone name.now d.text.items d.bad (S.left source.old) (S.left source.new) (S.faults source.old) (S.faults source.new) old new)
        (λ f. CauseNotDone f name.now (S.left source.old) (S.left source.new) (S.faults source.old) (S.faults source.new) old new) }
{
    let lines = lines_of(alloc, source)?;
    do_opened(alloc, name, &lines, rig)
}
