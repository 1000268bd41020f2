//! The target: what a unit whose blocks lie in a store answers to a command block.
#![tactic(auto)]

mod block;
mod refusal;
mod sense;
mod serving;
mod transfer;
mod unit;

pub use serving::{serve, serve_command};
pub use unit::LogicalUnit;
