//! Dumps of blocks with their protection information, checked as they come, without an image: the lines of the bad
//! blocks, and how many were bad or weren't checked.
#![tactic(auto)]

mod finding;
mod form;
mod lines;
mod summing;
mod tally;
mod walking;

pub use finding::{Judgement, find};
pub use form::{Dump, Form};
pub use tally::DumpTally;
pub use walking::{CheckFault, Checked, MOST_BLOCKS, check_dump};
