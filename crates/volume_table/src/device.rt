//! What a table asks of a device.

ghost use Rattle.std.specs.Prelude.{◌≡◌};
ghost use Rattle.volume_table.specs.Faults.{device};

use pi_tuple::PiType;

/// A device: its addresses are those from `first` to `first + blocks - 1`.
#[derive(Clone, Copy, Debug, PartialEq, Eq)]
pub struct DeviceInfo {
    /// The type of its protection information.
    pub ty: PiType,
    /// How many blocks it has.
    pub blocks: u64,
    /// How many bytes of data a block has.
    pub size: u32,
    /// Its first address (LBA).
    pub first: u64,
}

const NO_DEVICE: DeviceInfo = DeviceInfo {
    ty: PiType::Zero,
    blocks: 0,
    size: 0,
    first: 0,
};

impl Default for DeviceInfo {
    /// No device: what stands in the unused places of a list.
    fn default() -> DeviceInfo {
        NO_DEVICE
    }
}

/// The device of this number, where there is one; else one without blocks.
pub(crate) fn device(devices: &[DeviceInfo], number: u32) -> DeviceInfo
    ensures { result ≡ device devices.now number }
{
    match devices.get(number as usize) {
        Some(found) => *found,
        None => NO_DEVICE,
    }
}
