//! A list done on an image.

ghost use Rattle.std.specs.Prelude.{MatchResult};
ghost use Rattle.vector_runs.specs.Answered.{CauseUnanswered, HasAnswered};

use crate::doing::do_list;
use crate::range::out_of_range;
use call_refusal::Refusal;
use fault_schedule::FaultList;
use image_commands::open_image;
use rig_api::Rig;
use std::alloc::Global;
use vector_lines::VectorLine;

/// Opens the image of this name, arms no fault, and does the commands of a list, in order. Nothing is asked of the
/// devices before. A line that can't be done is named before the first command is done. After want of memory some of
/// the commands, from the first on, may be done.
pub fn answer_list<R: Rig>(
    alloc: Global,
    name: &str,
    lines: &[VectorLine],
    rig: &mut R,
) -> Result<(), Refusal>
    ensures { let old = R.state rig.old in
        let new = R.state rig.new in
        MatchResult result (λ _. HasAnswered name.now lines.now old new) (λ f. CauseUnanswered f name.now lines.now old new) }
{
    open_image(alloc, name, rig)?;
    rig.arm(FaultList::from_vec(Vec::new(alloc)));
    match out_of_range(rig, lines) {
        None => {}
        Some(fault) => return Err(Refusal::Script(fault)),
    }
    do_list(alloc, lines, rig)?;
    Ok(())
}
