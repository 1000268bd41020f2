//! Volumes over volumes: a stripe whose legs are inner volumes, each of linear extents one after
//! another, as stripes over devices that say the same.
#![tactic(auto)]

mod ends;
mod expanding;
mod track;

pub use expanding::expand;

/// Why a stripe over inner volumes can't be told as stripes over devices.
#[derive(Clone, Copy, Debug, PartialEq, Eq)]
pub enum TreeFault {
    /// Its length isn't a multiple of a chunk on each inner volume, or an inner volume has
    /// another length than its share.
    BadLength,
    /// An extent of an inner volume isn't whole chunks.
    Unaligned,
    /// The extents of all inner volumes have more than 16 different ends.
    TooMany,
    /// Want of memory.
    Memory,
}
