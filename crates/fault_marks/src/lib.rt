//! What judging a script says: where in its text the first fault is and what is wrong there, or what
//! a right script holds.
#![tactic(auto)]

mod bound;
mod closer;
mod detail;
mod entries;
mod laws;
mod lines;
mod listed;
mod lists;
mod marks;
mod order;
mod premises;
mod right;
mod said;
mod sentences;
mod texts;
mod words;

pub use entries::misfit_text;
pub use laws::the_cause_that_is_said_is_so;
pub use lists::list_text;
pub use marks::marked_text;
pub use right::right_text;
