//! The protection information tuple and the check that finds a difference in it
//! (SBC-3, 4.22 "Protection information model").
#![tactic(auto)]

mod checks;
mod tuple;

pub use checks::{Check, Checks, PiType, finds, has_ref_tag, is_escape, own_tag};
pub use tuple::{Tuple, make, ref_tag};

/// The bytes of a tuple (SBC-3, 4.22.2).
pub const TUPLE: usize = 8;

/// The most bytes of data that a block has here: 4,096.
pub const LARGEST_BLOCK: u32 = 4096;
