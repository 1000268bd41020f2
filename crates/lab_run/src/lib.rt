//! The top call of the program `dixlab`: shows the stored blocks of disk images, compares
//! them, takes dumps of them out and in, does commands and writes their vectors, judges scripts and explains
//! their runs, and sweeps flips.
#![tactic(auto)]

mod check_words;
mod checking;
mod command;
mod comparing;
mod dumps;
mod explaining;
mod exporting;
mod failing;
mod finding;
mod from;
mod importing;
mod judging;
mod layout;
mod place;
mod playing;
mod program;
mod refusal;
mod showing;
mod sweeping;
mod usage;

pub use call_verdict::{Status, refuse};
pub use check_words::CheckWords;
pub use command::Command;
pub use layout::layout_of;
pub use place::PlaceWord;
pub use program::run;
pub use refusal::Refusal;

/// The most blocks of a place.
pub const MOST_COUNT: u64 = 65_536;
