//! Tables of entries over devices.

ghost use Rattle.std.specs.Prelude.{IsTrue, All};
ghost use Rattle.volume_table.specs.Entries.{IsInRange};
ghost use Rattle.volume_table.specs.Tables.{EndFits};

use crate::entries::entries_of;
use crate::names::{out_of_range, place_text, type_of, type_text};
use std::alloc::{AllocError, Global};
use test_table::{number, small};
use volume_table::{DeviceInfo, Entry, VolumeFault, VolumeTable};

fn is_in_range(entry: &Entry) -> bool
    ensures { IsTrue result → IsInRange entry.now }
{
    match entry {
        Entry::Linear(linear) => 1 <= linear.len && linear.len <= 1_048_576,
        Entry::Stripe(stripe) => {
            let legs = stripe.legs.as_slice().len();
            1 <= stripe.len
                && stripe.len <= 1_048_576
                && 1 <= stripe.chunk
                && 1 <= legs
                && legs <= 8
        }
    }
}

fn are_in_range(entries: &[Entry]) -> bool
    ensures { IsTrue result → All IsInRange entries.now }
{
    for entry in entries {
        if !is_in_range(entry) {
            return false;
        }
    }
    true
}

fn ends_in_64_bits(device: DeviceInfo) -> bool
    ensures { IsTrue result → EndFits device }
{
    device.blocks <= u64::MAX - device.first
}

fn end_in_64_bits(devices: &[DeviceInfo]) -> bool
    ensures { IsTrue result → All EndFits devices.now }
{
    for device in devices {
        if !ends_in_64_bits(*device) {
            return false;
        }
    }
    true
}

/// The device of four numbers with / between: its type, its blocks, their size and its first address.
fn device_of(text: &str) -> DeviceInfo {
    let mut words = text.split('/');
    DeviceInfo {
        ty: type_of(words.next().unwrap_or("")),
        blocks: number(words.next().unwrap_or("")),
        size: small(words.next().unwrap_or("")),
        first: number(words.next().unwrap_or("")),
    }
}

fn devices_of(alloc: Global, text: &str) -> Result<Vec<DeviceInfo>, AllocError> {
    let mut devices = Vec::new(alloc);
    for device in text.split(';') {
        devices.push(device_of(device))?;
    }
    Ok(devices)
}

/// The table of these entries over these devices, whose blocks have 512 bytes, or its fault; none where the numbers are
/// none that it takes.
fn table_of(
    alloc: Global,
    devices: &str,
    entries: &str,
) -> Result<Option<Result<VolumeTable, VolumeFault>>, AllocError> {
    let list = entries_of(alloc, entries)?;
    let devices = devices_of(alloc, devices)?;
    if list.as_slice().len() > 16 || !are_in_range(list.as_slice()) || !end_in_64_bits(&devices) {
        return Ok(None);
    }
    Ok(Some(VolumeTable::new(alloc, &list, &devices, 512)))
}

/// The number of the entry at fault, and the name and number of its fault.
fn fault_text(alloc: Global, fault: VolumeFault) -> Result<String, AllocError> {
    match fault {
        VolumeFault::At { entry, kind } => {
            let (name, number) = (kind.name(), kind.number());
            format!(in alloc; "{entry} {name} {number}")
        }
        VolumeFault::Memory => Err(AllocError),
    }
}

/// How many blocks a table has, and of which type, or its fault.
pub(crate) fn judged(alloc: Global, devices: &str, entries: &str) -> Result<String, AllocError> {
    match table_of(alloc, devices, entries)? {
        None => out_of_range(alloc),
        Some(Err(fault)) => fault_text(alloc, fault),
        Some(Ok(table)) => {
            let (len, ty) = (table.len(), type_text(table.ty()));
            format!(in alloc; "{len} of type {ty}")
        }
    }
}

/// Where a block lies, and how many follow one another from there on.
pub(crate) fn place(
    alloc: Global,
    devices: &str,
    entries: &str,
    block: &str,
) -> Result<String, AllocError> {
    let v = number(block);
    let Some(Ok(table)) = table_of(alloc, devices, entries)? else {
        return out_of_range(alloc);
    };
    if v >= table.len() {
        return out_of_range(alloc);
    }
    place_text(alloc, table.place(v), table.run_from(v))
}
