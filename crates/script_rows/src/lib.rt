//! The table of texts of scripts.
#![tactic(auto)]

mod binding;
mod forming;
mod generated;
mod reading;
mod table;

pub use table::Table;
