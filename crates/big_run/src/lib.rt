//! The run of the script that a number makes, over two units in memory.
#![tactic(auto)]

mod counting;
mod running;
mod text;

pub use counting::OpCounts;
pub use running::{BigRun, run_big};
pub use text::big_text;
