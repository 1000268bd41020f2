//! The steps of a stack of requests, without the data: which step a word chooses, and what it does to ops, queues and
//! commands. The contract of each call is the step of the view (`stack_view`).
#![tactic(auto)]

mod choice;
mod flight;
mod live;
mod machine;
mod piece;
mod requests;
mod rests;
mod start;
mod state;
mod steps;
mod within;

pub use choice::Choice;
pub use machine::Machine;
pub use requests::{Requests, Site};

/// The most ops of a run.
pub const MOST_OPS: u32 = 4096;

/// The most pages that the ops of a run name.
pub const MOST_PAGES: u32 = 65_536;
