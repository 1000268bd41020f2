//! Which layer is the first to find a block altered, for each mode of protection information and
//! each protection type.
#![tactic(auto)]

mod failure_table;
mod failures;
mod finder;
mod modes;
mod others;

pub use failure_table::failures_text;
pub use failures::{Cell, Failure, Field, Link, Place, failure_cell};
pub use finder::{Seen, first_finder};
pub use modes::modes_text;
pub use others::each_other_failure_comes_to_its_cell;
