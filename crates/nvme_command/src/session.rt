//! The commands of lines, one after another.

ghost use Rattle.std.specs.Prelude.{◌≡◌, ◌||◌, [], MatchResult, not};
ghost use Rattle.nvme_front.specs.Answers.{HasNamespaces};
ghost use Rattle.nvme_front.specs.Completions.{is_success};
ghost use Rattle.nvme_command.specs.Done.{Adds, Came, CameInPart, Lacks, UnitsStay, WasDone};
ghost use Rattle.nvme_command.specs.Fits.{command_of};
ghost use Rattle.nvme_command.specs.Replies.{reply_of};

use crate::text::{add_reply, is_success};
use crate::{NvmLine, NvmReply, do_command};
use nvme_front::{Completion, NvmCommand, NvmFront};
use rig_api::Rig;
use std::alloc::{AllocError, Global};

/// What commands came to.
#[derive(Drop)]
pub struct Done {
    /// The lines of their completions.
    pub text: Vec<u8>,
    /// Whether some completion isn't 0h/00h.
    pub bad: bool,
}

/// Does the command of a line.
fn answered<R: Rig>(
    alloc: Global,
    front: &mut NvmFront,
    line: &NvmLine,
    rig: &mut R,
) -> Result<NvmReply, AllocError>
    requires devices { HasNamespaces front.old (R.state rig.old).standing (R.state rig.old).units }
    requires calm { (R.state rig.old).armed ≡ [] }
    ensures done { let old = R.state rig.old in
        let new = R.state rig.new in
        MatchResult result (λ r. WasDone front.old line.now (reply_of (command_of line.now) r) old new) (λ _. UnitsStay old new) }
    ensures devices { HasNamespaces front.new (R.state rig.new).standing (R.state rig.new).units }
    ensures armed { (R.state rig.new).armed ≡ (R.state rig.old).armed }
    ensures front { front.new ≡ front.old }
{
    match do_command(
        alloc,
        front,
        &line.sqe,
        line.fill,
        line.meta.as_slice(),
        rig,
    ) {
        Ok(reply) => Ok(reply),
        Err(error) => Err(error),
    }
}

/// Whether some completion isn't 0h/00h, with one more.
fn worse(bad: bool, completion: Completion) -> bool
    ensures { result ≡ (bad || not (is_success completion)) }
{
    bad || !is_success(completion)
}

/// Does the command of a line, and adds its text.
fn do_line<R: Rig>(
    alloc: Global,
    front: &mut NvmFront,
    line: &NvmLine,
    rig: &mut R,
    done: &mut Done,
) -> Result<(), AllocError>
    requires devices { HasNamespaces front.old (R.state rig.old).standing (R.state rig.old).units }
    requires calm { (R.state rig.old).armed ≡ [] }
    ensures done { let old = R.state rig.old in
        let new = R.state rig.new in
        MatchResult result (λ _. Adds front.old line.now done.old.text.items done.new.text.items done.old.bad done.new.bad old new) (λ _. Lacks front.old line.now old new) }
    ensures devices { HasNamespaces front.new (R.state rig.new).standing (R.state rig.new).units }
    ensures armed { (R.state rig.new).armed ≡ (R.state rig.old).armed }
    ensures front { front.new ≡ front.old }
{
    let reply = answered(alloc, front, line, rig)?;
    add_reply(alloc, &mut done.text, &NvmCommand::of(&line.sqe), &reply)?;
    done.bad = worse(done.bad, reply.completion);
    Ok(())
}

/// Does the commands of the lines, in order.
pub(crate) fn do_lines<R: Rig>(
    alloc: Global,
    front: &mut NvmFront,
    lines: &[NvmLine],
    rig: &mut R,
) -> Result<Done, AllocError>
    requires devices { HasNamespaces front.old (R.state rig.old).standing (R.state rig.old).units }
    requires calm { (R.state rig.old).armed ≡ [] }
    ensures { let old = R.state rig.old in
        let new = R.state rig.new in
        MatchResult result (λ d. Came front.old lines.now d.text.items d.bad old new) (λ _. CameInPart front.old lines.now old new) }
{
    let mut done = Done {
        text: Vec::new(alloc),
        bad: false,
    };
    for line in lines {
        do_line(alloc, front, line, rig, &mut done)?;
    }
    Ok(done)
}
