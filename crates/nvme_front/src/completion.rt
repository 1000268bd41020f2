//! Completions, and how the end of a SCSI command gives one.

ghost use Rattle.std.specs.Prelude.{◌≡◌};
ghost use Rattle.nvme_front.specs.Completions.{by_sense, completed, is_success, says};

use rig_api::Outcome;
use sense_codes::Sense;
use sense_codes::codes::{
    ABORTED_COMMAND, ILLEGAL_REQUEST, MEDIUM_ERROR, OUT_OF_RANGE, PROTECTION, UNRECOVERED_READ,
    WRITE_ERROR,
};

/// How a command was completed (NVM Express Base Specification, Status Field).
#[derive(Clone, Copy, Debug, PartialEq, Eq)]
pub struct Completion {
    /// The status code type: 0h generic, 1h specific to the command, 2h of medium and data integrity.
    pub sct: u8,
    /// The status code.
    pub sc: u8,
}

impl Completion {
    /// Whether the command succeeded: type and code are 0.
    pub fn is_success(self) -> bool
        ensures { result ≡ is_success self }
    {
        self.sct == 0 && self.sc == 0
    }
}

fn says(s: Sense, key: u8, asc: u8, ascq: u8) -> bool
    ensures { result ≡ says s key asc ascq }
{
    s.key == key && s.asc == asc && s.ascq == ascq
}

fn by_sense(s: Sense) -> Completion
    ensures { result ≡ by_sense s }
{
    if says(s, ABORTED_COMMAND, PROTECTION, 1) {
        return Completion { sct: 2, sc: 0x82 };
    }
    if says(s, ABORTED_COMMAND, PROTECTION, 2) {
        return Completion { sct: 2, sc: 0x83 };
    }
    if says(s, ABORTED_COMMAND, PROTECTION, 3) {
        return Completion { sct: 2, sc: 0x84 };
    }
    if says(s, MEDIUM_ERROR, UNRECOVERED_READ, 0) {
        return Completion { sct: 2, sc: 0x81 };
    }
    if says(s, MEDIUM_ERROR, WRITE_ERROR, 0) {
        return Completion { sct: 2, sc: 0x80 };
    }
    if says(s, ILLEGAL_REQUEST, OUT_OF_RANGE, 0) {
        return Completion { sct: 0, sc: 0x80 };
    }
    Completion { sct: 0, sc: 0x06 }
}

/// The completion of a command of so many blocks whose SCSI command came to this outcome.
pub(crate) fn completed(count: u32, outcome: Outcome) -> Completion
    ensures { result ≡ completed count outcome }
{
    if outcome.done == count {
        return Completion { sct: 0, sc: 0 };
    }
    match outcome.sense {
        Some(sense) => by_sense(sense),
        None => Completion { sct: 0, sc: 0x06 },
    }
}
