//! The NVM front: NVM read and write commands of 64 bytes for namespaces that are SCSI targets, by
//! translation to SCSI commands, and the completions of their outcomes.
#![tactic(auto)]

mod buffers;
mod command;
mod completion;
mod front;
mod refusal;
mod translation;

pub use command::NvmCommand;
pub use completion::Completion;
pub use front::NvmFront;
