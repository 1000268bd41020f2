//! Numbers in their ranges.

ghost use Rattle.std.specs.Prelude.{◌≡◌, ◌≤◌, ◌<◌, ◌^◌, IfSome};
ghost use Rattle.script_words.specs.Numbers.{number_within, signed_within};

use crate::decimals::number;

/// The number that the word spells, `0` or digits without a leading zero, where it is in this
/// range.
pub fn number_within(word: &[u8], low: u64, high: u64) -> Option<u64>
    ensures value { result ≡ number_within low high word.now }
    ensures bound { IfSome result (λ n. n ≤ high) }
{
    let value = number(word)?;
    if low <= value && value <= high {
        Some(value)
    } else {
        None
    }
}

/// The signed number that the word spells, of at most this size: a number, or `-` and a number
/// other than 0.
pub fn signed_within(word: &[u8], most: u32) -> Option<i64>
    ensures { result ≡ signed_within most word.now }
{
    match word {
        [b'-', rest @ ..] => {
            let size = number_within(rest, 1, u64::from(most))?;
            Some(-(size as i64))
        }
        _ => {
            let size = number_within(word, 0, u64::from(most))?;
            Some(size as i64)
        }
    }
}
