//! What a stack is made for.

use dix_adapter::Mode;
use fault_schedule::FaultList;
use merge_queue::Limits;
use volume_table::VolumeTable;

/// What a stack is made for, apart from the ops.
#[derive(Drop)]
pub struct Setup {
    /// Where virtual blocks lie.
    pub table: VolumeTable,
    /// How tuples travel.
    pub mode: Mode,
    /// What one command may hold.
    pub limits: Limits,
    /// How many pages of 4,096 bytes the ops name.
    pub pages: u32,
    /// The faults, which the rig has armed too.
    pub faults: FaultList,
}
