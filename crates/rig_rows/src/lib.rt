//! The table of images, rigs over them, NVM commands and blocks on their ways.
#![tactic(auto)]

mod capacity;
mod faults;
mod files;
mod images;
mod modes;
mod nvm;
mod stretches;
mod table;
mod units;
mod ways;
mod whole_way;

pub use table::Table;
