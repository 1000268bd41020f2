//! Stretches of bytes with one verdict.

use crate::verdict::Verdict;

/// Neighbouring bytes of a frame whose flips come to the same.
#[derive(Clone, Copy, Debug, PartialEq, Eq)]
pub(crate) struct Stretch {
    /// The first byte.
    pub(crate) first: u32,
    /// The last byte.
    pub(crate) last: u32,
    /// What they come to.
    pub(crate) verdict: Verdict,
}
