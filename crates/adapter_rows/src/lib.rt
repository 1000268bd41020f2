//! The table of groups that the adapter carries over images in memory: what comes of a row is the step at which something
//! else came.
#![tactic(auto)]

mod blocks;
mod carrying;
mod case;
mod layout;
mod outcomes;
mod scene;
mod table;

pub use table::Table;
