//! The first fault of a list of entries.

ghost use Rattle.std.specs.Prelude.{◌≡◌, ◌<◌, ◌≤◌, ◌+◌, length, nat_lt, sum_by, All};
ghost use Rattle.std.specs.List.{list_any};
ghost use Rattle.volume_table.specs.Entries.{IsInRange, entry_len, extents};
ghost use Rattle.volume_table.specs.Faults.{do_any_meet, fault_of, is_before_start, is_of_other_size, is_of_other_type, is_past_end, is_type, is_unknown, table_fault, volume_type};

use crate::device::{DeviceInfo, device};
use crate::entry::Entry;
use crate::extent::{Extent, do_any_meet};
use crate::fault::{VolumeFault, VolumeKind};
use pi_tuple::PiType;

/// The type of the first entry's first device.
pub(crate) fn volume_type(entries: &[Entry], devices: &[DeviceInfo]) -> PiType
    requires { All IsInRange entries.now }
    ensures { result ≡ volume_type entries.now devices.now }
{
    match entries.split_first() {
        Some((first, _)) => device(devices, first.first_device()).ty,
        None => PiType::Zero,
    }
}

fn are_unknown(extents: &[Extent], devices: &[DeviceInfo]) -> bool
    ensures { result ≡ list_any (is_unknown devices.now) extents.now }
{
    extents
        .iter()
        .any(|extent| extent.dev as usize >= devices.len())
}

fn begin_before_start(extents: &[Extent], devices: &[DeviceInfo]) -> bool
    ensures { result ≡ list_any (is_before_start devices.now) extents.now }
{
    extents
        .iter()
        .any(|extent| extent.at < device(devices, extent.dev).first)
}

fn ends_past(extent: &Extent, on: DeviceInfo) -> bool
    ensures { result ≡ nat_lt (on.first + on.blocks) (extent.now.at + extent.now.len) }
{
    let end = u128::from(on.first) + u128::from(on.blocks);
    u128::from(extent.at) + u128::from(extent.len) > end
}

fn end_past(extents: &[Extent], devices: &[DeviceInfo]) -> bool
    ensures { result ≡ list_any (is_past_end devices.now) extents.now }
{
    extents
        .iter()
        .any(|extent| ends_past(extent, device(devices, extent.dev)))
}

fn is_type(a: PiType, b: PiType) -> bool
    ensures { result ≡ is_type a b }
{
    a == b
}

fn have_other_type(extents: &[Extent], devices: &[DeviceInfo], ty: PiType) -> bool
    ensures { result ≡ list_any (is_of_other_type ty devices.now) extents.now }
{
    extents
        .iter()
        .any(|extent| !is_type(device(devices, extent.dev).ty, ty))
}

fn have_other_size(extents: &[Extent], devices: &[DeviceInfo], size: u32) -> bool
    ensures { result ≡ list_any (is_of_other_size size devices.now) extents.now }
{
    extents
        .iter()
        .any(|extent| device(devices, extent.dev).size != size)
}

fn meet_earlier(own: &[Extent], before: &[Entry]) -> bool
    requires { All IsInRange before.now }
    ensures { result ≡ list_any (λ b. do_any_meet own.now (extents b)) before.now }
{
    for entry in before {
        if do_any_meet(own, entry.extents().as_slice()) {
            return true;
        }
    }
    false
}

/// The first fault of an entry that has these before it, with `start` blocks.
fn fault_of(
    before: &[Entry],
    entry: &Entry,
    start: u64,
    ty: PiType,
    devices: &[DeviceInfo],
    size: u32,
) -> Option<VolumeKind>
    requires before { All IsInRange before.now }
    requires ranges { IsInRange entry.now }
    requires start { start ≡ sum_by entry_len before.now }
    ensures { result ≡ fault_of ty before.now entry.now devices.now size }
{
    let extents = entry.extents();
    let own = extents.as_slice();
    if entry.start() != start {
        return Some(VolumeKind::Gap);
    }
    if are_unknown(own, devices) {
        return Some(VolumeKind::UnknownDevice);
    }
    if entry.has_bad_chunk() {
        return Some(VolumeKind::BadChunk);
    }
    if begin_before_start(own, devices) {
        return Some(VolumeKind::BeforeStart);
    }
    if end_past(own, devices) {
        return Some(VolumeKind::PastEnd);
    }
    if entry.has_shared_legs() || meet_earlier(own, before) {
        return Some(VolumeKind::Overlap);
    }
    if have_other_type(own, devices, ty) {
        return Some(VolumeKind::MixedTypes);
    }
    if have_other_size(own, devices, size) {
        return Some(VolumeKind::OtherSize);
    }
    None
}

/// The first entry at fault with its first fault.
pub(crate) fn first_fault(
    entries: &[Entry],
    devices: &[DeviceInfo],
    size: u32,
) -> Option<VolumeFault>
    requires count { length entries.now ≤ 16 }
    requires ranges { All IsInRange entries.now }
    ensures { result ≡ table_fault entries.now devices.now size }
{
    let ty = volume_type(entries, devices);
    let mut start = 0;
    for (i, entry) in entries.iter().enumerate() {
        if let Some(kind) = fault_of(&entries[..i], entry, start, ty, devices, size) {
            return Some(VolumeFault::At {
                entry: i as u32 + 1,
                kind,
            });
        }
        start += entry.len();
    }
    None
}
