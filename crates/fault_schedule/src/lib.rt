//! The schedule of faults: which bytes of a block are altered, and by how many blocks an address
//! is off, each time that a block crosses from one part of the path to the next.
#![tactic(auto)]

mod fault;
mod short_bytes;
mod tamper;

pub use fault::{Crossing, FaultKind, FaultLine, FaultList};
pub use short_bytes::ShortBytes;
pub use tamper::{Tamper, xor_into};

/// Whose block crosses: block `k` of the request in op `op`.
#[derive(Clone, Copy, Debug, PartialEq, Eq)]
pub struct Label {
    /// The number of the op, from 1.
    pub op: u32,
    /// The index of the block in the op's request, from 0.
    pub k: u32,
}
