//! What `nvme IMAGE` comes to before its text is written: the lines of a source are read, an image is
//! opened, and each line's command is done.
#![tactic(auto)]

mod doing;
mod fitting;
mod line;
mod read;
mod session;
mod session_doing;
mod session_opening;
mod text;

pub use doing::do_commands;
pub use line::NvmLine;
pub use read::read_lines;
pub use session::Done;
pub use session_doing::{NvmReply, do_command};
pub use session_opening::front_of;
