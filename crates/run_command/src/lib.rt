//! What a call that runs a script comes to: a script is read from a source, bound to the volume of
//! an image, and run by a stack over its rig; or why it comes to no run. And the texts of both.
#![tactic(auto)]

mod binding;
mod scripts;
mod text;
mod verdict;

pub use binding::table_of;
pub use scripts::take_script;
pub use text::print_traced_run;
pub use verdict::{Finished, is_any_bad, run_script, run_source};
