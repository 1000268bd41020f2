//! What one command may hold.

/// The limits of one command.
#[derive(Clone, Copy, Debug, PartialEq, Eq)]
pub struct Limits {
    /// The most blocks.
    pub max_blocks: u32,
    /// The most segments of data.
    pub max_segs: u32,
    /// The most segments of tuples.
    pub max_pi_segs: u32,
}
