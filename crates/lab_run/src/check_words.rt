//! The words of `check`.

ghost use Rattle.std.specs.Prelude.{◌≡◌, Some};
ghost use Rattle.call_verdict.specs.Words.{word_bytes};
ghost use Rattle.lab_run.specs.CheckWords.{check_words_in, flagged, layout_flagged, plain_words, want_flagged};

use script_words::{number, number_within, tag};

/// What the words of `check` say of a dump, and what isn't said.
#[derive(Clone, Copy, Debug, PartialEq, Eq)]
pub struct CheckWords {
    /// The protection type, 1 to 3.
    pub pi_type: u32,
    /// The address of the first block.
    pub first: u64,
    /// The bytes of a block's data.
    pub size: u32,
    /// The bytes of its metadata.
    pub meta: u32,
    /// Where in the metadata the protection information begins.
    pub at: u32,
    /// The bits of the guard.
    pub guard: u32,
    /// The bits of a storage tag.
    pub storage: Option<u32>,
    /// The reference tag of the first block.
    pub tag: Option<u64>,
    /// The application tag.
    pub app: Option<u16>,
    /// The bits of it that are checked.
    pub mask: Option<u16>,
}

/// What no word says.
const PLAIN: CheckWords = CheckWords {
    pi_type: 1,
    first: 0,
    size: 512,
    meta: 8,
    at: 0,
    guard: 16,
    storage: None,
    tag: None,
    app: None,
    mask: None,
};

/// The words with a flag of the layout more.
fn layout_flagged(words: CheckWords, flag: &[u8], value: &[u8]) -> Option<CheckWords>
    ensures { result ≡ layout_flagged words flag.now value.now }
{
    if flag == b"--size".as_slice() {
        let size = number_within(value, 1, 65536)?;
        return Some(CheckWords {
            size: size as u32,
            ..words
        });
    }
    if flag == b"--meta".as_slice() {
        let meta = number_within(value, 8, 64)?;
        return Some(CheckWords {
            meta: meta as u32,
            ..words
        });
    }
    if flag == b"--at".as_slice() {
        let at = number_within(value, 0, 56)?;
        return Some(CheckWords {
            at: at as u32,
            ..words
        });
    }
    if flag == b"--guard".as_slice() {
        let guard = number_within(value, 16, 64)?;
        return Some(CheckWords {
            guard: guard as u32,
            ..words
        });
    }
    if flag == b"--storage".as_slice() {
        let storage = number_within(value, 0, 64)?;
        return Some(CheckWords {
            storage: Some(storage as u32),
            ..words
        });
    }
    None
}

/// The words with a flag of what is wanted more.
fn want_flagged(words: CheckWords, flag: &[u8], value: &[u8]) -> Option<CheckWords>
    ensures { result ≡ want_flagged words flag.now value.now }
{
    if flag == b"--type".as_slice() {
        let pi_type = number_within(value, 1, 3)?;
        return Some(CheckWords {
            pi_type: pi_type as u32,
            ..words
        });
    }
    if flag == b"--first".as_slice() {
        let first = number_within(value, 0, 0x7FFF_FFFF_FFFF_FFFF)?;
        return Some(CheckWords { first, ..words });
    }
    if flag == b"--ref".as_slice() {
        let tag = number(value)?;
        return Some(CheckWords {
            tag: Some(tag),
            ..words
        });
    }
    if flag == b"--app".as_slice() {
        let app = tag(value)?;
        return Some(CheckWords {
            app: Some(app),
            ..words
        });
    }
    if flag == b"--mask".as_slice() {
        let mask = tag(value)?;
        return Some(CheckWords {
            mask: Some(mask),
            ..words
        });
    }
    None
}

/// The words with a flag more.
fn flagged(words: CheckWords, flag: &[u8], value: &[u8]) -> Option<CheckWords>
    ensures { result ≡ flagged words flag.now value.now }
{
    match layout_flagged(words, flag, value) {
        Some(words) => Some(words),
        None => want_flagged(words, flag, value),
    }
}

/// What the words behind `check` say: flags, each with its value behind it, of which the last counts where one comes again.
pub(crate) fn check_words(words: &[String]) -> Option<CheckWords>
    ensures { result ≡ check_words_in (word_bytes words.now) (Some plain_words) }
{
    let mut said = PLAIN;
    let mut rest = words;
    while let Some((flag, more)) = rest.split_first() {
        let (value, behind) = more.split_first()?;
        said = flagged(said, flag.as_bytes(), value.as_bytes())?;
        rest = behind;
    }
    Some(said)
}
