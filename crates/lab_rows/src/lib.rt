//! The table of calls of the top call of `dixlab`: words, images, what fails outside, and what the call comes to.
#![tactic(auto)]

mod calls;
mod images;
mod lines;
mod sweeps;
mod table;
mod wanted;

pub use table::Table;
