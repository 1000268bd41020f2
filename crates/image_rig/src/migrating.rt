//! The head of version 2 in place of one of version 1.

ghost use Rattle.std.specs.Prelude.{◌≡◌, ◌≤◌, IfOk, None, OnErr, OnOk, length};
ghost use Rattle.dix_base.specs.Stores.{WasWritten};
ghost use Rattle.dix_base.specs.Told.{Becomes, Rose};
ghost use Rattle.rig_api.specs.Head.{IsHeadOf, head_fault, units_of, version_in};
ghost use Rattle.rig_api.specs.Telling.{IsMigrated, KeepsBlocks, KeepsUnits, migrated_count};
ghost use Rattle.image_rig.specs.Heads.{head_in};
ghost use Rattle.rig_api.specs.Image.{migrated};

use crate::ImageHead;
use dix_base::{Failed, Store};
use rig_api::{UnitSpec, Version, header};

/// Writes the header of version 2 that tells these units.
fn write_header<S: Store>(store: &mut S, units: &[UnitSpec]) -> Result<(), Failed>
    requires few { length units.now ≤ 8 }
    requires long { 512 ≤ (S.state store.old).length }
    ensures written { OnOk result (Becomes (λ was is. is ≡ migrated units.now was) (S.state store.old).bytes (S.state store.new).bytes) }
    ensures blocks { KeepsBlocks (S.state store.old).bytes (S.state store.new).bytes }
    ensures cause { OnErr result (Rose (S.state store.old).faults (S.state store.new).faults) }
    ensures stays { WasWritten (S.state store.old) (S.state store.new) }
{
    store.write_at(0, &header(Version::Second, units))
}

/// Writes the header of version 2 that tells the units of this head, which is right and the image's, where it
/// is of version 1. Answers how many units it wrote, and 0 where the head is of version 2.
pub(crate) fn migrate_head<S: Store>(store: &mut S, head: &ImageHead) -> Result<u32, Failed>
    requires right { head_fault (head_in head.now) ≡ None }
    requires told { IsHeadOf (head_in head.now) (S.state store.old).bytes }
    requires size { head.now.size ≡ (S.state store.old).length }
    ensures number { IfOk result (λ n. n ≡ migrated_count (version_in (head_in head.now)) (units_of (head_in head.now))) }
    ensures migrated { OnOk result (IsMigrated (head_in head.now) (S.state store.old).bytes (S.state store.new).bytes) }
    ensures stored { OnOk result (KeepsUnits (S.state store.old).bytes (S.state store.new).bytes) }
    ensures blocks { KeepsBlocks (S.state store.old).bytes (S.state store.new).bytes }
    ensures cause { OnErr result (Rose (S.state store.old).faults (S.state store.new).faults) }
    ensures stays { WasWritten (S.state store.old) (S.state store.new) }
{
    match head.version() {
        Some(Version::First) => {
            let units = head.units();
            write_header(store, &units)?;
            Ok(units.len() as u32)
        }
        _ => Ok(0),
    }
}
