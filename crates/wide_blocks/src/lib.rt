//! Blocks that lie in memory with the protection information of NVMe of 16 bytes, whose guard has 32 or 64 bits (NVM
//! Command Set Specification, "End-to-end Data Protection"): checked, made, remapped, inserted and stripped.
//!
//! The structs are plain numbers in the layout of C. Each number has a meaning or is refused, so no call asks anything
//! of its caller. No call allocates.
#![tactic(auto)]

mod apart;
mod block;
mod checking;
mod information;
mod inserting;
mod layout;
mod making;
mod mapping;
mod stripping;

pub use apart::{generate_apart, verify_apart};
pub use block::{NvmeFound, NvmeWant};
pub use checking::verify_wide;
pub use inserting::insert_wide;
pub use layout::{NvmeLayout, NvmeRefusal};
pub use making::{NvmeTags, generate_wide};
pub use mapping::remap_wide;
pub use stripping::strip_wide;
