//! Requests to read and write blocks of a volume, the parts that they are cut into, and what becomes of their
//! blocks (Linux, block layer: `struct bio` and its integrity payload).
#![tactic(auto)]

mod bio;
mod fate;
mod request;

pub use bio::Bio;
pub use fate::{Fate, Why};
pub use request::{Dir, Io};

/// The requests of a run have at most this many blocks together.
pub const MOST_BLOCKS: u32 = 16384;
