//! A look at an image: it is opened, and its head is read and judged.

ghost use Rattle.std.specs.Prelude.{◌≡◌, ◌≤◌, IfOk, OnErr, OnOk, Option, take, length};
ghost use Rattle.dix_base.specs.Stores.{WasRead};
ghost use Rattle.dix_base.specs.Told.{IsRead, Rose};
ghost use Rattle.rig_api.specs.Head.{HasJudged, IsFaultOf, IsHeadOf};
ghost use Rattle.image_rig.specs.Heads.{HasLooked, JudgesHead, head_in};

use crate::image_head::ImageHead;
use dix_base::{Failed, Store};
use rig_api::RigFault;
use std::alloc::Global;

/// Reads the first bytes of the image. There is no call where there are none.
fn first_bytes<S: Store>(store: &mut S, have: usize) -> Result<[u8; 512], Failed>
    requires within { have ≤ (S.state store.old).length }
    requires bound { have ≤ 512 }
    ensures read { IfOk result (λ first. IsRead 0 have (take have first) (S.state store.old).bytes) }
    ensures stays { WasRead (S.state store.old) (S.state store.new) }
    ensures cause { OnErr result (Rose (S.state store.old).faults (S.state store.new).faults) }
{
    let mut first = [0; 512];
    if have == 0 {
        return Ok(first);
    }
    store.read_at(0, &mut first[..have])?;
    Ok(first)
}

/// Reads the head of an image of this size.
fn read_head<S: Store>(store: &mut S, size: u64) -> Result<ImageHead, Failed>
    requires { size ≡ (S.state store.old).length }
    ensures head { IfOk result (λ h. IsHeadOf (head_in h) (S.state store.old).bytes) }
    ensures size { IfOk result (λ h. h.size ≡ size) }
    ensures stays { WasRead (S.state store.old) (S.state store.new) }
    ensures cause { OnErr result (Rose (S.state store.old).faults (S.state store.new).faults) }
{
    let have = size.min(512) as usize;
    let first = first_bytes(store, have)?;
    Ok(ImageHead { size, have, first })
}

fn judged(head: &ImageHead) -> Result<(), RigFault>
    ensures fault { IsFaultOf result (head_in head.now) }
    ensures judges { JudgesHead result }
{
    match head.fault() {
        None => Ok(()),
        Some(fault) => Err(fault),
    }
}

/// Opens the image of this name, and reads and judges its head, which takes the place of the one that
/// was read before. That one stays where the image can't be opened or read.
pub fn look<S: Store>(
    alloc: Global,
    store: &mut S,
    head: &mut ImageHead,
    name: &str,
) -> Result<(), RigFault>
    ensures judged { IsFaultOf result (head_in head.new) }
    ensures head { HasJudged result (head_in head.old) (head_in head.new) (S.state store.old).bytes }
    ensures size { OnOk result ((head_in head.new).size ≡ (S.state store.new).length) }
    ensures looked { HasLooked result name.now (S.state store.old) (S.state store.new) }
{
    let Ok(name) = String::from_str(alloc, name) else {
        return Err(RigFault::Memory);
    };
    let Ok(size) = store.open(name) else {
        return Err(RigFault::Failed);
    };
    let Ok(read) = read_head(store, size) else {
        return Err(RigFault::Failed);
    };
    *head = read;
    judged(head)
}
