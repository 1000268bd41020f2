//! The lines that tell stored blocks and units.
#![tactic(auto)]

mod blocks;
mod diff;
mod diff_walk;
mod dumps_fault;
mod dumps_laws;
mod export;
mod fault;
mod import;
mod laws;
mod layout;
mod line;
mod pieces;
mod show;
mod sight;
mod unit;
mod units;
mod unlike;

pub use blocks::show_blocks;
pub use diff::{Pair, WhatDiffers, write_compared, write_diff_first, write_differences};
pub use diff_walk::{TwoPlaces, diff_blocks};
pub use dumps_fault::ImportFault;
pub use dumps_laws::a_dump_comes_back;
pub use export::export_blocks;
pub use fault::DiffFault;
pub use import::import_blocks;
pub use laws::{nothing_differs, show_lists_what_a_scrub_lists};
pub use layout::{Layout, fits, piece_len};
pub use pieces::fill;
pub use show::Tally;
pub use sight::{Verdict, add_block};
pub use unit::write_units;
pub use units::show_units;
