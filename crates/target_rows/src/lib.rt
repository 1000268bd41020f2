//! The table of commands to a unit in memory.
#![tactic(auto)]

mod faults;
mod outcomes;
mod scene;
mod table;
mod units;

pub use table::Table;
