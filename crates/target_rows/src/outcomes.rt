//! What a command ends with, as a row writes it.

use hex::FromHex;
use rig_api::Outcome;
use sense_codes::Sense;
use test_table::{cut, small};

/// The sense of a word: key, code and qualifier in hexadecimal, and behind @ the information, if it has any; none of
/// another word.
fn sense_of(word: &str) -> Option<Sense> {
    let (codes, info) = word.split_once('@').unwrap_or((word, ""));
    let [key, asc, ascq] = <[u8; 3] as FromHex>::from_hex(codes).ok()?;
    Some(Sense {
        key,
        asc,
        ascq,
        info: info.parse::<u64>().ok(),
    })
}

/// Whether this is the outcome of two words: how many blocks are done, and the sense or `-`.
pub(crate) fn is_outcome(outcome: Outcome, words: &str) -> bool {
    let (done, sense) = cut(words);
    outcome.done == small(done) && outcome.sense == sense_of(sense)
}
