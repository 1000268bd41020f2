//! Scrub: a look at every stored block of every device, by commands that check the blocks where
//! they are stored and move none of them.
#![tactic(auto)]

mod command;
mod found;
mod look;
mod walk;

pub use found::Found;
pub use walk::scrub;
