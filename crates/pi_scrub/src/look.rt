//! One look at some blocks of a device.

ghost use Rattle.std.specs.Prelude.{◌≡◌, ◌+◌, ◌<◌, ◌≤◌, ◌^◌, ◌++◌, [], ◌∷◌, IfOk, OnErr};
ghost use Rattle.dix_base.specs.Told.{Rose};
ghost use Rattle.rig_api.specs.Log.{HasRoom, IsMedium};
ghost use Rattle.rig_api.specs.Telling.{greatest_size};
ghost use Rattle.rig_api.specs.State.{Stays};
ghost use Rattle.pi_scrub.specs.Looks.{entry_of};
ghost use Rattle.pi_scrub.specs.Steps.{Did, Finds, room_for};

use crate::command::verify_of;
use crate::found::Found;
use block_path::why_by;
use pi_tuple::PiType;
use rig_api::{Outcome, Rig};
use std::alloc::{AllocError, Global};

/// Sends a VERIFY of these blocks, and answers how it ended.
fn verify<R: Rig>(rig: &mut R, dev: u32, ty: PiType, lba: u64, n: u32) -> Outcome
    requires device { dev < (R.state rig.old).standing.devices }
    requires some { 1 ≤ n }
    requires most { n ≤ 1024 }
    requires end { lba + n < 2 ^ 64 }
    requires room { HasRoom (greatest_size (R.state rig.old).standing) 1 0 (R.state rig.old).room }
    ensures recorded { (R.state rig.new).log ≡ (R.state rig.old).log ++ (entry_of (record { dev = dev; ty = ty; lba = lba; n = n; outcome = result }) ∷ []) }
    ensures told { Finds dev ty lba n result (R.state rig.old).units (R.state rig.old).faults (R.state rig.new).faults }
    ensures medium { IsMedium result → Rose (R.state rig.old).faults (R.state rig.new).faults }
    ensures units { (R.state rig.new).units ≡ (R.state rig.old).units }
    ensures stays { Stays (R.state rig.old) (R.state rig.new) }
{
    let cdb = verify_of(ty, lba, n).encode();
    let mut nothing = [0u8; 0];
    rig.exchange(dev, &cdb, &[], &[], &mut nothing)
}

fn put_last(found: &mut Vec<Found>, one: Found)
    requires { 1 ≤ room_for found.old }
    ensures { found.new.items ≡ found.old.items ++ (one ∷ []) }
{
    match found.push(one) {
        Ok(()) => {}
        Err(_) => unreachable!(),
    }
}

/// Looks at these blocks by one command, up to the first at which it ends, puts that block into
/// `found`, and answers how many blocks are settled. Without memory no command is sent.
pub(crate) fn look<R: Rig>(
    alloc: Global,
    dev: u32,
    ty: PiType,
    lba: u64,
    n: u32,
    rig: &mut R,
    found: &mut Vec<Found>,
) -> Result<u32, AllocError>
    requires device { dev < (R.state rig.old).standing.devices }
    requires some { 1 ≤ n }
    requires most { n ≤ 1024 }
    requires end { lba + n < 2 ^ 64 }
    ensures did { IfOk result (λ k. Did dev ty lba n k found.old.items found.new.items
        (R.state rig.old).log (R.state rig.new).log (R.state rig.old).units (R.state rig.old).faults (R.state rig.new).faults) }
    ensures no_found { OnErr result (found.new.items ≡ found.old.items) }
    ensures no_log { OnErr result ((R.state rig.new).log ≡ (R.state rig.old).log) }
    ensures units { (R.state rig.new).units ≡ (R.state rig.old).units }
    ensures stays { Stays (R.state rig.old) (R.state rig.new) }
{
    found.reserve(1)?;
    rig.reserve(alloc, 1, 0)?;
    let outcome = verify(rig, dev, ty, lba, n);
    if outcome.done >= n {
        return Ok(n);
    }
    put_last(
        found,
        Found {
            dev,
            lba: lba + outcome.done as u64,
            why: why_by(outcome.sense),
        },
    );
    Ok(outcome.done + 1)
}
