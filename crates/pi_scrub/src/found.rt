//! A stored block at fault.

use bio_core::Why;

/// A stored block that a check found at fault, or that could not be checked.
#[derive(Clone, Copy, Debug, PartialEq, Eq)]
pub struct Found {
    /// The device, from 0.
    pub dev: u32,
    /// The address of the block.
    pub lba: u64,
    /// What was found, by the sense of the command that ended at the block: never `Block` or `App`.
    pub why: Why,
}
