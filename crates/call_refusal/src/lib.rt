//! Why a call on an image comes to nothing, and the line that says it.
#![tactic(auto)]

mod from;
mod lines;
mod refusal;

pub use refusal::{Refusal, TOO_LONG};
