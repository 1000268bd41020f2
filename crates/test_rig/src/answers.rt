//! What a device is to answer.

ghost use Rattle.std.specs.Prelude.{◌≡◌, length, true};
ghost use Rattle.rig_api.specs.Log.{has_key};

use rig_api::Outcome;
use sense_codes::Sense;

/// What a device is to answer to a command: how far it came, and the bytes that it sends.
#[derive(Drop)]
pub struct Answer {
    /// How far it came with the command. Of a sense whose key has more than four bits nothing is
    /// answered.
    pub outcome: Outcome,
    /// What it sends, as far as there is room for it.
    pub bytes: Vec<u8>,
}

/// A sense has a key of four bits.
fn kept_sense(sense: Option<Sense>) -> Option<Sense>
    ensures { has_key result ≡ true }
{
    match sense {
        Some(found) if found.key < 16 => Some(found),
        _ => None,
    }
}

/// The outcome, with the sense that a device can answer.
pub(crate) fn kept_outcome(outcome: Outcome) -> Outcome
    ensures { has_key result.sense ≡ true }
{
    Outcome {
        done: outcome.done,
        sense: kept_sense(outcome.sense),
    }
}

/// Puts bytes at the front of a buffer, as far as it has room.
pub(crate) fn send(bytes: &[u8], into: &mut [u8])
    ensures { length into.new ≡ length into.old }
{
    let count = into.len();
    for (i, byte) in bytes.iter().take(count).enumerate() {
        into[i] = *byte;
    }
}
