//! The table of pages, tuples, requests, queues and ops.
#![tactic(auto)]

mod bios;
mod crowd;
mod gates;
mod kinds;
mod ops;
mod pages;
mod queues;
mod scene;
mod table;
mod tuples;

pub use table::Table;
