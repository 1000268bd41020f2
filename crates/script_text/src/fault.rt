//! What is wrong with a script.

use script_lines::ScriptKind;

/// The first fault of a script.
#[derive(Clone, Copy, Debug, PartialEq, Eq)]
pub struct ScriptFault {
    /// The number of the line, from 1; 0 where the text as a whole is too long.
    pub line: u32,
    /// What is wrong with it.
    pub kind: ScriptKind,
}
