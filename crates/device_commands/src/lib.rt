//! Commands as initiators send them and targets get them: READ, WRITE, VERIFY and their relatives with every bit that
//! SBC-3, clause 5, and SBC-4 give them, in a field that may be longer than the command.
//!
//! No call asks anything of its caller, and none allocates.
#![tactic(auto)]

mod command;
mod decode;
mod encode;
mod laws;
mod length;
mod op;
mod protect;

pub use command::DeviceCommand;
pub use laws::{bytes_behind_are_not_read, codec_commands_are_said, written_commands_are_said};
pub use length::cdb_len;
pub use protect::checks_asked;
