//! What may be done with pages, and whether a group of blocks may be carried by an adapter, tried as the program runs: for
//! tests and benchmarks, whose segments and groups come from tables.
#![tactic(auto)]

mod bytes;
mod groups;
mod requests;
mod separate;
mod tuples;

pub use bytes::{all_lie, lies, list_of, write_all};
pub use groups::group_blocks;
pub use separate::{are_apart, none_twice};
pub use tuples::is_payload;
