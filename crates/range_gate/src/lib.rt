//! Which op of a script may start: an op waits for the earlier ones that touch what it writes, or write what it
//! touches. So nothing writes a page while a write of it is in flight (Linux, block layer: stable pages).
#![tactic(auto)]

mod footprint;
mod gate;
mod laws;
mod phase;
mod print;

pub use footprint::{Footprint, Reach, Touch, TouchList};
pub use gate::Gate;
pub use laws::ops_without_conflict_share_no_cell;
pub use phase::Phase;
