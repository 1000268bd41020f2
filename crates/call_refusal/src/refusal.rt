//! Why a call comes to nothing.

use rig_api::RigFault;
use script_lines::ScriptKind;
use script_text::ScriptFault;
use volume_table::VolumeKind;

/// Why a call comes to nothing.
#[derive(Clone, Copy, Debug, PartialEq, Eq)]
pub enum Refusal {
    /// The text is not in its language, or may not run over the image; its first fault.
    Script(ScriptFault),
    /// The image's head has this fault: `BadMagic`, `BadHeader` or `BadLength`.
    Image(RigFault),
    /// This device's answer to READ CAPACITY(16) is at fault.
    BadCapacity {
        /// The number of the device, from 0.
        dev: u32,
    },
    /// An entry of the volume is at fault.
    Volume {
        /// The number of the entry, from 1.
        entry: u32,
        /// Its first fault.
        kind: VolumeKind,
    },
    /// The rig failed as the image was opened or written.
    RigFault,
    /// Want of memory.
    Memory,
    /// The source of the text failed.
    ReadFault,
}

/// The fault of a text that is too long.
pub const TOO_LONG: ScriptFault = ScriptFault {
    line: 0,
    kind: ScriptKind::TooMany,
};
