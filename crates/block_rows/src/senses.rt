//! Sense data as plain numbers.

use pi_blocks::SenseFields;
use pi_tuple::Check;
use sense_codes::{Layer, SenseFault};
use std::alloc::{AllocError, Global};
use test_table::{Words, bytes_of, hex_of};

/// A number of 8 bits in decimal digits, or the largest where the word is none.
fn tiny(word: &str) -> u8 {
    word.parse::<u8>().unwrap_or(u8::MAX)
}

/// The sense of five words: key, code and qualifier, whether there is an information, and the information.
fn fields_of(words: &mut Words) -> SenseFields {
    SenseFields {
        key: tiny(words.word()),
        asc: tiny(words.word()),
        ascq: tiny(words.word()),
        has_info: tiny(words.word()),
        info: words.number(),
    }
}

/// The bytes of a sense, and those behind them, which were ee.
pub(crate) fn encoded(alloc: Global, words: &mut Words) -> Result<String, AllocError> {
    let mut out = [0xee; 20];
    match fields_of(words).encode(&mut out) {
        Some(len) => {
            let bytes = hex_of(alloc, &out)?;
            format!(in alloc; "{len} {bytes}")
        }
        None => String::from_str(alloc, "bad field"),
    }
}

/// The sense of bytes, in the words that `encoded` takes, or what is wrong with them.
pub(crate) fn decoded(alloc: Global, word: &str) -> Result<String, AllocError> {
    match SenseFields::decode(&bytes_of(alloc, word)?) {
        Ok(fields) => {
            let SenseFields {
                info,
                key,
                asc,
                ascq,
                has_info,
            } = fields;
            format!(in alloc; "{key} {asc} {ascq} {has_info} {info}")
        }
        Err(SenseFault::Short) => String::from_str(alloc, "short"),
        Err(SenseFault::Form) => String::from_str(alloc, "form"),
    }
}

/// Who found a block altered and by which check, or none.
pub(crate) fn told(alloc: Global, words: &mut Words) -> Result<String, AllocError> {
    let Some((layer, check)) = fields_of(words).layer_and_check() else {
        return String::from_str(alloc, "none");
    };
    let layer = match layer {
        Layer::Adapter => "adapter",
        Layer::Target => "target",
    };
    let check = match check {
        Check::Guard => "guard",
        Check::AppTag => "apptag",
        Check::RefTag => "reftag",
    };
    format!(in alloc; "{layer} {check}")
}
