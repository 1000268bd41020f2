//! The table of what the crates of words, lines and reports make of texts.
#![tactic(auto)]

mod lines;
mod reasons;
mod records;
mod reports;
mod scrubs;
mod senses;
mod sinks;
mod table;
mod words;

pub use table::Table;
