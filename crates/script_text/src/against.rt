//! What a script is bound to, and what its lines ask of it.

ghost use Rattle.std.specs.Prelude.{◌≡◌, slice_get};
ghost use Rattle.script_text.specs.Bindings.{is_alterable, is_bad_change, is_on, request_at, request_of};

use rig_api::Change;
use stack_ops::Op;
use volume_table::{DeviceInfo, VolumeTable};

/// The first block and the number of blocks of a request.
pub(crate) fn request(op: &Op) -> Option<(u64, u32)>
    ensures { result ≡ request_of op.now }
{
    match op {
        Op::Write { v, n, .. }
        | Op::Fetch { v, n, .. }
        | Op::WritePi { v, n, .. }
        | Op::FetchPi { v, n, .. } => Some((*v, *n)),
        _ => None,
    }
}

/// The request that the op of this number, from 1, is.
pub fn request_at(ops: &[Op], number: u32) -> Option<(u64, u32)>
    ensures { result ≡ request_at ops.now number }
{
    if number == 0 {
        return None;
    }
    match ops.get(number as usize - 1) {
        Some(op) => request(op),
        None => None,
    }
}

/// The volume and the devices that a script is bound to.
#[derive(Clone, Copy)]
pub struct Against<'a> {
    /// The volume.
    pub table: &'a VolumeTable,
    /// The devices that the volume lies on.
    pub devices: &'a [DeviceInfo],
    /// How many bytes of data a block of the script has.
    pub size: u32,
}

/// Whether an address that is moved by so many blocks lies on the device.
pub(crate) fn is_on(device: DeviceInfo, lba: u64, by: i64) -> bool
    ensures { result ≡ is_on device lba by }
{
    let lba = u128::from(lba);
    let first = u128::from(device.first);
    let end = first + u128::from(device.blocks);
    let by_so_many = u128::from(by.unsigned_abs());
    if by < 0 {
        first + by_so_many <= lba && lba < end + by_so_many
    } else {
        first <= lba + by_so_many && lba + by_so_many < end
    }
}

/// Whether a stored block can be altered: the device is there, of the volume's type and the
/// script's block size, and has the address.
pub fn can_alter(against: Against, dev: u32, lba: u64) -> bool
    ensures { result ≡ is_alterable against.entry.table.now.ty against.entry.size lba (slice_get against.entry.devices.now dev) }
{
    match against.devices.get(dev as usize) {
        None => false,
        Some(device) => {
            device.ty == against.table.ty() && device.size == against.size && is_on(*device, lba, 0)
        }
    }
}

/// Whether a stored block can't be altered so: the block that is to be copied can't be altered itself.
pub fn is_bad_change(against: Against, change: &Change) -> bool
    ensures { result ≡ is_bad_change against.entry.table.now against.entry.devices.now against.entry.size change.now }
{
    match change {
        Change::Flip { .. } => false,
        Change::Copy { dev, lba } => !can_alter(against, *dev, *lba),
    }
}
