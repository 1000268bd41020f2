//! Asking each device of a rig for its capacity.

ghost use Rattle.std.specs.Prelude.{◌≡◌, ◌+◌, ◌^◌, List, IfSome, ◌≤◌, ◌<◌, ◌++◌, ◌∷◌, [], IfErr, IfOk, IsOkAnd, Some, is_some, length, map, true};
ghost use Rattle.rig_api.specs.Log.{HasRoom};
ghost use Rattle.rig_api.specs.Telling.{greatest_size, spec_at, specs_of};
ghost use Rattle.rig_api.specs.State.{Stays};
ghost use Rattle.record_laws.specs.Answered.{Answers};
ghost use Rattle.rig_api.specs.Passed.{Stored};
ghost use Rattle.rig_discovery.specs.Discovery.{LookAnswer, Ends, HasFault, HasFound, Spent, entry_of_look, info_of, told};

use crate::answer::told_by;
use arrayvec::ArrayVec;
use rig_api::Rig;
use volume_table::DeviceInfo;

/// A device whose answer to READ CAPACITY(16) is at fault.
#[derive(Clone, Copy, Debug, PartialEq, Eq)]
pub struct BadCapacity {
    /// The number of the device, from 0.
    pub dev: u32,
}

/// READ CAPACITY(16) with room for 32 bytes (SBC-3, 5.16).
const LOOK: [u8; 16] = [0x9E, 0x10, 0, 0, 0, 0, 0, 0, 0, 0, 0, 0, 0, 32, 0, 0];

/// Asks one device, and answers what it is, or `None` where the answer is at fault.
fn ask<R: Rig>(rig: &mut R, dev: u32) -> Option<DeviceInfo>
    requires device { dev < (R.state rig.old).standing.devices }
    requires room { HasRoom (greatest_size (R.state rig.old).standing) 1 0 (R.state rig.old).room }
    ensures asked { (a : LookAnswer) × (result ≡ told (R.state rig.old).standing dev a) × ((R.state rig.new).log ≡ (R.state rig.old).log ++ (entry_of_look (R.state rig.old).standing dev a ∷ [])) }
    ensures told { is_some (R.state rig.old).units ≡ true → result ≡ Some (info_of (spec_at (R.state rig.old).standing dev)) }
    ensures end { IfSome result (λ i. i.first + i.blocks < 2 ^ 64) }
    ensures answered { (us : List Stored) → (R.state rig.old).units ≡ Some us → Answers us (R.state rig.old) (R.state rig.new) }
    ensures units { (R.state rig.new).units ≡ (R.state rig.old).units }
    ensures stays { Stays (R.state rig.old) (R.state rig.new) }
    ensures spent { Spent 1 (R.state rig.old).room (R.state rig.new).room }
{
    let mut data = [0u8; 32];
    let outcome = rig.exchange(dev, &LOOK, &[], &[], &mut data);
    told_by(rig.first(dev), rig.size(dev), outcome, &data)
}

/// Asks each device once, in order, and answers what they are: at most eight, of which each has its
/// number as its place. `BadCapacity` comes exactly where an answer is at fault, and names the
/// first such device: one with a sense, with another block length than the rig's `size`, with a
/// last address of all ones or below the rig's `first`, with a P_TYPE above 2, or with one other
/// than 0 beside a PROT_EN of 0. Behind it none is asked. A rig that tells its blocks never causes
/// it. Each answer stands in its record. No memory is taken.
pub fn discover<R: Rig>(rig: &mut R) -> Result<ArrayVec<DeviceInfo, 8>, BadCapacity>
    requires few { (R.state rig.old).standing.devices ≤ 8 }
    requires room { HasRoom (greatest_size (R.state rig.old).standing) (R.state rig.old).standing.devices 0 (R.state rig.old).room }
    ensures found { IfOk result (λ v. HasFound (R.state rig.old).standing v.items (R.state rig.old).log (R.state rig.new).log) }
    ensures fault { IfErr result (λ f. HasFault (R.state rig.old).standing f.dev (R.state rig.old).log (R.state rig.new).log) }
    ensures told { is_some (R.state rig.old).units ≡ true → IsOkAnd result (λ v. v.items ≡ map info_of (specs_of (R.state rig.old).standing)) }
    ensures ends { IfOk result (λ v. Ends v.items) }
    ensures answered { (us : List Stored) → (R.state rig.old).units ≡ Some us → Answers us (R.state rig.old) (R.state rig.new) }
    ensures units { (R.state rig.new).units ≡ (R.state rig.old).units }
    ensures stays { Stays (R.state rig.old) (R.state rig.new) }
    ensures spent { Spent (R.state rig.old).standing.devices (R.state rig.old).room (R.state rig.new).room }
{
    let mut found = ArrayVec::new();
    for dev in 0..rig.devices() {
        match ask(rig, dev) {
            Some(info) => match found.try_push(info) {
                Ok(()) => {}
                Err(_) => unreachable!(),
            },
            None => return Err(BadCapacity { dev }),
        }
    }
    Ok(found)
}
