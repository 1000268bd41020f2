//! Words that the calls share.

use pi_blocks::{Found, Refusal, Unchecked, Want};
use std::alloc::{AllocError, Global};
use test_table::{Words, hex_of};

/// A number of 16 bits in decimal digits, or the largest where the word is none.
pub(crate) fn short(word: &str) -> u16 {
    word.parse::<u16>().unwrap_or(u16::MAX)
}

/// What is wanted, by four words: the first reference tag, the application tag, its mask, and the bits of the checks.
pub(crate) fn want_of(words: &mut Words) -> Want {
    Want {
        first_ref: words.small(),
        app: short(words.word()),
        mask: short(words.word()),
        checks: words.small(),
    }
}

fn refusal(alloc: Global, why: Refusal) -> Result<String, AllocError> {
    String::from_str(
        alloc,
        match why {
            Refusal::BadLayout => "bad layout",
            Refusal::BadLength => "bad length",
        },
    )
}

/// What a check answers: none, or the block, the check, what is wanted and what is there.
pub(crate) fn found_text(
    alloc: Global,
    answer: Result<Option<Found>, Unchecked>,
) -> Result<String, AllocError> {
    match answer {
        Ok(None) => String::from_str(alloc, "none"),
        Ok(Some(found)) => {
            let Found {
                block,
                check,
                expected,
                actual,
            } = found;
            format!(in alloc; "{block} {check} {expected} {actual}")
        }
        Err(Unchecked::Blocks(why)) => refusal(alloc, why),
        Err(Unchecked::Flags) => String::from_str(alloc, "bad flags"),
    }
}

/// What a call left, or why it did nothing.
pub(crate) fn written_text(
    alloc: Global,
    answer: Result<(), Refusal>,
    bytes: &[u8],
) -> Result<String, AllocError> {
    match answer {
        Ok(()) => hex_of(alloc, bytes),
        Err(why) => refusal(alloc, why),
    }
}
