//! The table of calls of the program's top call: words, sources, images, what fails outside, and what the call comes to.
#![tactic(auto)]

mod bytes;
mod calls;
mod commands;
mod files;
mod holding_sink;
mod lines;
mod outside;
mod sources;
mod sweeps;
mod table;
mod wanted;

pub use table::Table;
