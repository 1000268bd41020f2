//! Whether a script may run on a mirror.
#![tactic(auto)]

mod bind;

pub use bind::bind_mirror;
