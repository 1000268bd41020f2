//! The integrity payload of a request: its protection information tuples, which lie in pages beside the data
//! (Linux, Documentation/block/data-integrity). Tuples are made, read and checked where they lie.
#![tactic(auto)]

mod blocks;
mod payload;

pub use payload::{Owner, Payload};
