//! The texts that a run writes: the report of what its ops replied, and the trace of the commands
//! that were exchanged with the devices.
#![tactic(auto)]

mod line;
mod report;
mod trace;
mod why;
mod writing;

pub use line::{Line, add, add_hex, add_number};
pub use report::print_report;
pub use trace::print_trace;
pub use why::{add_check, add_why};
pub use writing::{write_all, write_hex, write_out};
