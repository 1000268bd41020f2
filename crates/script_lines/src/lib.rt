//! The lines of scripts: what each says by itself, read word by word from left to right.
#![tactic(auto)]

mod fault_lines;
mod forms;
mod header_lines;
mod kind;
mod line;
mod listed;
mod lists;
mod op_lines;
mod verb;
mod volume_lines;
mod words;

pub use forms::line_of;
pub use kind::ScriptKind;
pub use line::{ModeLine, OpLine, ScriptLine, Spot};
pub use lists::{SegList, VolumeList, WordList};
pub use verb::{ScriptVersion, Section, Verb, verb_of};
pub use words::Words;

/// The most blocks of a chunk of a striped entry.
pub const MOST_CHUNK: u32 = 65_536;

/// The bytes of the most pages of a script: 256 of 4,096.
pub const MOST_MEMORY: u32 = 1_048_576;
