//! The language in which people write what a run does: read with the first fault named, bound to a
//! volume, printed, and made from a number.
#![tactic(auto)]

mod adding;
mod against;
mod big;
mod bind;
mod crossing;
mod draft;
mod fault;
mod kinds;
mod mode;
mod ops;
mod print;
mod raw_fault;
mod read;
mod rules;
mod script;
mod segments;
mod text;
mod trees;

pub use against::{Against, can_alter, is_bad_change, request_at};
pub use big::big_script;
pub use bind::{bind_script, is_bad_fail, is_bad_keep, is_misplaced, is_named, is_shifted};
pub use draft::is_read;
pub use fault::ScriptFault;
pub use print::print_script;
pub use read::read_script;
pub use script::{LineList, Script};
pub use script_lines::{ScriptKind, WordList};

/// The most extents of inner volumes.
pub const MOST_INNER: usize = 32;

/// The most entries of a volume.
pub const MOST_ENTRIES: usize = 16;

/// The most legs of an entry.
pub const MOST_LEGS: usize = 8;

/// The most faults.
pub const MOST_FAULTS: usize = 256;

/// The most entries of a schedule.
pub const MOST_SCHEDULE: usize = 16384;

/// The most ops of a script.
pub const MOST_OPS: usize = 1024;

/// The most blocks of a request.
pub const MOST_REQUEST: u32 = 2048;
