//! The stack of a script that was read and bound to a volume, and its steps to the end.
#![tactic(auto)]

mod laws;
mod run;
mod start;
mod whole;

pub use laws::{
    a_script_run_is_backed, a_told_script_run_has_fallen, a_told_script_run_has_walked,
};
pub use run::run_all;
pub use start::{Run, start_script};
pub use whole::{ready_script, run_bound};
