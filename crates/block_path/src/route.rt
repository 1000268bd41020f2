//! One block on its way between host and medium.

use crate::Mode;
use fault_schedule::Label;
use pi_tuple::PiType;

/// A block of a request: which it is, where it goes, and how.
#[derive(Clone, Copy, Debug, PartialEq, Eq)]
pub struct Route {
    /// Which block of which request it is.
    pub label: Label,
    /// Its number in the volume, whose low 32 bits are the reference tag that the host uses.
    pub virt: u64,
    /// The device on which it lies.
    pub dev: u32,
    /// Its address on that device.
    pub lba: u64,
    /// The type of the device.
    pub ty: PiType,
    /// The bytes of data in a block.
    pub size: u32,
    /// How its tuple travels.
    pub mode: Mode,
}
