//! A fault before all ops are read.

use fault_schedule::FaultKind;
use script_lines::Spot;

/// A fault as its line says it: which crossing its place is depends on the op.
#[derive(Drop)]
pub(crate) struct RawFault {
    pub(crate) op: u32,
    pub(crate) k: u32,
    pub(crate) spot: Spot,
    pub(crate) kind: FaultKind,
}
