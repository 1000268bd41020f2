//! The top call of the program `dix`: makes disk images and looks after them, runs a script on one and
//! writes a report.
#![tactic(auto)]

mod big;
mod command;
mod commands;
mod mirroring;
mod modes;
mod nvme;
mod program;
mod refusal;
mod running;
mod scrub_text;

pub use call_verdict::{Status, refuse};
pub use command::{Command, command_of};
pub use program::run;
pub use refusal::Refusal;
