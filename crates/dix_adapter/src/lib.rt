//! The adapter between a host and its targets: it gathers a group of blocks from the pages, checks and converts their
//! tuples, sends one command, and lands what comes back (Data Integrity Extensions).
#![tactic(auto)]

mod adapter;
mod inward;
mod outcome;
mod outward;
mod scratch;
mod walks;

pub use adapter::Adapter;
pub use block_path::{Mode, Operation, operation_for};
pub use scratch::Scratch;

/// The most blocks of one command.
pub const MOST_OF_COMMAND: u32 = 1_048_576;
