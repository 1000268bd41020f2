//! The table of a volume's extents.

ghost use Rattle.std.specs.Prelude.{◌≡◌, ℕ, ◌+◌, ◌<◌, ◌≤◌, List, length, All, IfOk, IsOkUnless, None, Some};
ghost use Rattle.volume_table.specs.declared.device.DeviceInfo.{DeviceInfo};
ghost use Rattle.volume_table.specs.declared.fault.VolumeFault.{VolumeFault};
ghost use Rattle.volume_table.specs.Entries.{IsInRange};
ghost use Rattle.volume_table.specs.Faults.{table_fault, volume_type};
ghost use Rattle.volume_table.specs.Places.{holder, place_in, run_in, volume_len};
ghost use Rattle.volume_table.specs.Tables.{EndFits, RunGoesOn, IsOn, IsTable, MadeFor};

use crate::device::DeviceInfo;
use crate::entry::Entry;
use crate::entry_list::EntryList;
use crate::fault::VolumeFault;
use crate::judge::{first_fault, volume_type};
use pi_tuple::PiType;
use std::alloc::Global;
use std::marker::Model;

/// Where each block of a volume lies. A contract sees the entries and the one type of their
/// devices.
///
/// `MadeFor` relates a table to devices and a block size, and says all that holds of the places
/// of its blocks.
#[derive(Drop)]
pub struct VolumeTable {
    held: EntryList,
    kind: PiType,
}

impl Model for VolumeTable {
    ghost use Rattle.volume_table.specs.Tables.{IsTable, Table};

    ghost Value = { Table };

    ghost view = { λ t. record { entries = t.held; ty = t.kind } };

    ghost invariant = { λ t. IsTable (record { entries = t.held; ty = t.kind }) };
}

impl VolumeTable {
    /// The table of these entries over these devices, whose blocks have `size` bytes, or the
    /// first entry's first fault. It keeps a copy of the entries.
    ///
    /// There are at most 16 entries. An entry has 1 to 1,048,576 blocks, a stripe at least one
    /// block in a chunk and 1 to 8 legs, and a device's end fits 64 bits. Sums of an entry that
    /// don't fit 64 bits are judged as the sums that they are.
    pub fn new(
        alloc: Global,
        entries: &EntryList,
        devices: &[DeviceInfo],
        size: u32,
    ) -> Result<VolumeTable, VolumeFault>
        requires count { length entries.now ≤ 16 }
        requires ranges { All IsInRange entries.now }
        requires ends { All EndFits devices.now }
        ensures fault { (f : VolumeFault) → table_fault entries.now devices.now size ≡ Some f → result ≡ Err f }
        ensures good { table_fault entries.now devices.now size ≡ None → IsOkUnless result VolumeFault.Memory }
        ensures entries { IfOk result (λ t. t.entries ≡ entries.now) }
        ensures ty { IfOk result (λ t. t.ty ≡ volume_type entries.now devices.now) }
        ensures made { IfOk result (λ t. MadeFor t devices.now size) }
    {
        let list = entries.as_slice();
        if let Some(fault) = first_fault(list, devices, size) {
            return Err(fault);
        }
        let kind = volume_type(list, devices);
        match entries.copy(alloc) {
            Ok(held) => Ok(VolumeTable { held, kind }),
            Err(_) => Err(VolumeFault::Memory),
        }
    }

    /// The device and the address of virtual block `v`.
    pub fn place(&self, v: u64) -> (u32, u64)
        requires { v < volume_len self.now.entries }
        ensures value { result ≡ place_in self.now.entries v }
        ensures alone { (w : ℕ) → w < volume_len self.now.entries → place_in self.now.entries w ≡ result → w ≡ v }
        ensures inside { (devices : List DeviceInfo) (size : ℕ) → MadeFor self.now devices size → IsOn devices self.now.ty size result.0 result.1 1 }
    {
        self.entry_of(v).place(v)
    }

    /// For how many blocks from `v` on, with `v`, the device stays and the addresses go on by
    /// one entry.
    pub fn run_from(&self, v: u64) -> u64
        requires { v < volume_len self.now.entries }
        ensures value { result ≡ run_in self.now.entries v }
        ensures some { 1 ≤ result }
        ensures runs { (k : ℕ) → k < result → RunGoesOn self.now.entries v k }
    {
        self.entry_of(v).run_from(v)
    }

    /// How many virtual blocks there are.
    pub fn len(&self) -> u64
        ensures { result ≡ volume_len self.now.entries }
    {
        let mut len = 0;
        for entry in self.held.as_slice() {
            len += entry.len();
        }
        len
    }

    /// The one type of all devices that an entry names, and `Zero` for a table without entries.
    pub fn ty(&self) -> PiType
        ensures { result ≡ self.now.ty }
    {
        self.kind
    }

    fn entry_of(&self, v: u64) -> &Entry
        requires { v < volume_len self.now.entries }
        ensures found { holder self.now.entries v ≡ Some result.now }
        ensures table { IsTable self.now }
    {
        let mut rest = self.held.as_slice();
        while let Some((entry, more)) = rest.split_first() {
            if entry.holds(v) {
                return entry;
            }
            rest = more;
        }
        unreachable!()
    }
}
