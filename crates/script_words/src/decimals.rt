//! Numbers as words spell them.

ghost use Rattle.std.specs.Prelude.{◌≡◌};
ghost use Rattle.std.specs.List.{list_all};
ghost use Rattle.script_words.specs.Decimals.{is_digit, is_number, number_in};

fn is_all_digits(word: &[u8]) -> bool
    ensures { result ≡ list_all is_digit word.now }
{
    word.iter().all(|b| b'0' <= *b && *b <= b'9')
}

/// Whether the word is 0, or digits without a leading zero.
fn is_spelled(word: &[u8]) -> bool
    ensures { result ≡ is_number word.now }
{
    match word {
        [] => false,
        [_] => is_all_digits(word),
        [first, ..] => *first != b'0' && is_all_digits(word),
    }
}

/// The number that the word spells, 0 or digits without a leading zero, where it is below 2^64.
pub fn number(word: &[u8]) -> Option<u64>
    ensures { result ≡ number_in word.now }
{
    if !is_spelled(word) {
        return None;
    }
    let mut value = 0u64;
    for digit in word {
        value = value
            .checked_mul(10)?
            .checked_add(u64::from(*digit - b'0'))?;
    }
    Some(value)
}
