//! Lists of commands for devices: each line has a device, a command block and what is sent to it. And the
//! lines that tell what came of commands, which are such a list again.
#![tactic(auto)]

mod line;
mod read;
mod text;

pub use line::VectorLine;
pub use read::{is_list, read_list};
pub use text::{in_of, out_of, write_first, write_vector};
