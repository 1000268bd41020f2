//! A script run in memory over freshly formatted units, once for each byte of a frame and each crossing at which it may
//! be altered: who finds it, and what nobody finds.
#![tactic(auto)]

mod copying;
mod counts;
mod flips;
mod from;
mod line;
mod listing;
mod own_lines;
mod runs;
mod same;
mod spoilt;
mod stretch;
mod sweep;
mod verdict;

pub use flips::Site;
pub use own_lines::own_fault;
pub use sweep::{Halt, Unswept, sweep_script};
pub use verdict::Verdict;
