//! The queue of one device: groups of bios that go out as one command, and which of them may be joined.
#![tactic(auto)]

mod chains;
mod entries;
mod group_index;
mod limits;
mod queue;

pub use limits::Limits;
pub use queue::DeviceQueue;
