//! What the adapter says to its rig, said by itself.

ghost use Rattle.std.specs.Prelude.{◌≡◌, length};
ghost use Rattle.rig_api.specs.Log.{capacity_len};
ghost use Rattle.rig_api.specs.Requests.{blocks_of};

use crate::targets::{BLOCKS, READ, WRITE, frames};
use fault_schedule::Label;
use rig_api::{Outcome, Rig};
use std::alloc::{AllocError, Global};
use test_rig::AnswerRig;

/// The device of type 1 with blocks of 512 bytes.
pub(crate) const DEVICE: u32 = 1;

pub(crate) const DONE: Outcome = Outcome {
    done: BLOCKS,
    sense: None,
};

fn labels(alloc: Global) -> Result<Vec<Label>, AllocError> {
    let mut labels = Vec::new(alloc);
    for k in 0..BLOCKS {
        labels.push(Label { op: 1, k })?;
    }
    Ok(labels)
}

/// One exchange of a command of 1,024 blocks, with room made for its record.
fn exchange(
    rig: &mut AnswerRig,
    cdb: &[u8],
    labels: &[Label],
    out: &[u8],
    into: &mut [u8],
) -> Outcome
    requires short { length cdb.now ≡ 10 }
    requires blocks { blocks_of cdb.now ≡ 1024 }
    requires data { capacity_len cdb.now (length into.old) ≡ 0 }
{
    rig.forget(BLOCKS);
    if rig.devices() <= DEVICE {
        return DONE;
    }
    rig.exchange(DEVICE, cdb, labels, out, into)
}

/// So many exchanges, and how many blocks the last one did.
pub(crate) fn exchanged(alloc: Global, is_write: bool, times: u32) -> Result<u32, AllocError> {
    let labels = labels(alloc)?;
    let out = frames(alloc)?;
    let mut into = frames(alloc)?;
    let mut rig = AnswerRig::new(alloc, DONE, frames(alloc)?)?;
    let mut done = 0;
    for _ in 0..times {
        done = if is_write {
            exchange(&mut rig, &WRITE, &labels, &out, &mut []).done
        } else {
            exchange(&mut rig, &READ, &labels, &[], &mut into).done
        };
    }
    Ok(done)
}
