//! Sense data: what a target says of a command that it didn't carry out whole (SPC-4, 4.5).
#![tactic(auto)]

pub mod codes;
mod decode;
mod encode;
mod layer;

pub use decode::SenseFault;
pub use layer::{Layer, layer_and_check};

/// Sense data: the sense key, the additional sense code with its qualifier, and the INFORMATION
/// field (SPC-4, 4.5).
#[derive(Clone, Copy, Debug, PartialEq, Eq)]
pub struct Sense {
    /// The sense key, 0h to Fh.
    pub key: u8,
    /// The additional sense code, ASC.
    pub asc: u8,
    /// The additional sense code qualifier, ASCQ.
    pub ascq: u8,
    /// The INFORMATION field, where it is valid: the LBA of the block that the sense speaks of.
    pub info: Option<u64>,
}
