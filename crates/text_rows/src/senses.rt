//! Senses, as a row writes them.

use sense_codes::Sense;
use test_table::array_of;

/// The sense of a word: key, code and qualifier in hexadecimal, and behind @ the information, if it has any; none of
/// another word.
pub(crate) fn sense_of(word: &str) -> Option<Sense> {
    let (codes, info) = word.split_once('@').unwrap_or((word, ""));
    let [key, asc, ascq] = array_of::<3>(codes)?;
    Some(Sense {
        key,
        asc,
        ascq,
        info: info.parse::<u64>().ok(),
    })
}
