//! The rig: devices behind command blocks, as the layers above see them, with a record of every
//! exchange.
#![tactic(auto)]

mod change;
mod frame;
mod passage;
mod record;
mod request;
mod rig;
mod size;
mod units;

pub use change::Change;
pub use frame::{put_tuple, tuple_behind};
pub use passage::Passage;
pub use record::{Exchanged, blocks_of, front};
pub use request::{Request, is_foreign, request_of};
pub use rig::{Outcome, Record, Rig, RigFault};
pub use size::{sent_size, stored_size};
pub use units::{UnitSpec, Version, header, is_header, is_layout, is_spec, specs_in, version_of};

/// The bytes of the largest frame: 4,096 of data and a tuple.
pub const MOST_FRAME: usize = 4104;

/// The most blocks that a unit with blocks of 512 bytes has, and one with blocks of 4,096.
pub(crate) const MOST_SMALL: u64 = 65_536;

pub(crate) const MOST_LARGE: u64 = 8192;
