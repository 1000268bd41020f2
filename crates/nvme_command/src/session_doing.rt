//! One command of a session.

ghost use Rattle.std.specs.Prelude.{◌≡◌, ◌-◌, true, false, None, IfOk, OnErr, is_some, length, replicate};
ghost use Rattle.dix_base.specs.Told.{Rose};
ghost use Rattle.rig_api.specs.State.{Stays};
ghost use Rattle.nvme_front.specs.Answers.{HasNamespaces};
ghost use Rattle.nvme_front.specs.Results.{IsAnswered};
ghost use Rattle.nvme_front.specs.Commands.{command_in};
ghost use Rattle.nvme_front.specs.Completions.{is_internal, is_of_medium};
ghost use Rattle.nvme_front.specs.Refusals.{body_len, device_at, meta_len, refusal};
ghost use Rattle.nvme_command.specs.Sessions.{HasReplied, given};

use nvme_front::{Completion, NvmCommand, NvmFront};
use rig_api::Rig;
use std::alloc::{AllocError, Global};

/// What a command comes to.
#[derive(Drop)]
pub struct NvmReply {
    /// The completion.
    pub completion: Completion,
    /// The buffer of data, as the command leaves it; empty where it was refused.
    pub body: Vec<u8>,
    /// The buffer of metadata.
    pub meta: Vec<u8>,
}

/// The buffer of metadata: what is given, where it has so many bytes, else zeros.
fn given(alloc: Global, count: usize, meta: &[u8]) -> Result<Vec<u8>, AllocError>
    ensures { IfOk result (λ v. v.items ≡ given count meta.now) }
{
    let mut tuples = vec![in alloc; 0u8; count]?;
    if meta.len() == count {
        tuples.copy_from_slice(meta);
    }
    Ok(tuples)
}

/// So many bytes that are this one.
fn filled(alloc: Global, count: usize, byte: u8) -> Result<Vec<u8>, AllocError>
    ensures { IfOk result (λ v. v.items ≡ replicate count byte) }
{
    Ok(vec![in alloc; byte; count]?)
}

/// Does a command that isn't refused, with these buffers.
fn do_granted<R: Rig>(
    alloc: Global,
    front: &mut NvmFront,
    sqe: &[u8; 64],
    mut body: Vec<u8>,
    mut meta: Vec<u8>,
    rig: &mut R,
) -> Result<NvmReply, AllocError>
    requires granted { refusal front.old (command_in sqe.now) ≡ None }
    requires body { length body.items ≡ body_len (device_at front.old (command_in sqe.now).nsid) (command_in sqe.now) }
    requires meta { length meta.items ≡ meta_len (device_at front.old (command_in sqe.now).nsid).ty (command_in sqe.now) }
    requires devices { HasNamespaces front.old (R.state rig.old).standing (R.state rig.old).units }
    ensures answered { IfOk result (λ r. IsAnswered front.old (command_in sqe.now) body.items meta.items r.body.items r.meta.items r.completion (R.state rig.old) (R.state rig.new)) }
    ensures unsent { OnErr result (R.state rig.new ≡ record (R.state rig.old) { room = (R.state rig.new).room }) }
    ensures stays { Stays (R.state rig.old) (R.state rig.new) }
    ensures front { front.new ≡ front.old }
{
    rig.reserve(alloc, 1, NvmCommand::of(sqe).count)?;
    let completion = front.submit(sqe, &mut body, &mut meta, rig);
    Ok(NvmReply {
        completion,
        body,
        meta,
    })
}

/// Does the command of these 64 bytes, with data of this byte and with the metadata that is given, where
/// it has as many bytes as the command takes, else zeros. A command that is refused sends nothing. Want
/// of memory comes before anything is sent. 2h/80h and 2h/81h come only where the rig's count of faults
/// rose, 0h/06h never over a rig that tells its blocks.
pub fn do_command<R: Rig>(
    alloc: Global,
    front: &mut NvmFront,
    sqe: &[u8; 64],
    fill: u8,
    meta: &[u8],
    rig: &mut R,
) -> Result<NvmReply, AllocError>
    requires devices { HasNamespaces front.old (R.state rig.old).standing (R.state rig.old).units }
    ensures replied { IfOk result (HasReplied front.old (command_in sqe.now) fill meta.now (R.state rig.old) (R.state rig.new)) }
    ensures never { IfOk result (λ r. is_some (R.state rig.old).units ≡ true → is_internal r.completion ≡ false) }
    ensures medium { IfOk result (λ r. is_of_medium r.completion ≡ true → Rose (R.state rig.old).faults (R.state rig.new).faults) }
    ensures unsent { OnErr result (R.state rig.new ≡ record (R.state rig.old) { room = (R.state rig.new).room }) }
    ensures devices { HasNamespaces front.new (R.state rig.new).standing (R.state rig.new).units }
    ensures stays { Stays (R.state rig.old) (R.state rig.new) }
    ensures front { front.new ≡ front.old }
{
    let (body_len, meta_len) = match front.lengths(sqe) {
        Ok(lengths) => lengths,
        Err(completion) => {
            return Ok(NvmReply {
                completion,
                body: Vec::new(alloc),
                meta: Vec::new(alloc),
            });
        }
    };
    let body = filled(alloc, body_len as usize, fill)?;
    let tuples = given(alloc, meta_len as usize, meta)?;
    do_granted(alloc, front, sqe, body, tuples, rig)
}
