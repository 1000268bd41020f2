//! The table of whole runs: images, scripts, the store's calls that fail or how the devices answer, and what is replied
//! and sent.
#![tactic(auto)]

mod answers;
mod image;
mod row;
mod runs;
mod table;

pub use table::Table;
