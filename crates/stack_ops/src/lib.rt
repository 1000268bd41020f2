//! The ops of a script and their replies, as plain values, and what each op touches.
#![tactic(auto)]

mod footprints;
mod laws;
mod op;
mod pages;
mod reply;

pub use footprints::footprint_of;
pub use laws::footprints_are_cells;
pub use op::{Op, OpList};
pub use pages::{fill, put};
pub use reply::{BadBlock, BadList, Reply};
