//! Words that many rows have.

use pi_tuple::{Check, PiType};
use std::alloc::{AllocError, Global};

/// What comes of a call that there is not.
pub(crate) fn none(alloc: Global) -> Result<String, AllocError> {
    String::from_str(alloc, "no call")
}

/// What comes of a call whose numbers are none that it takes.
pub(crate) fn out_of_range(alloc: Global) -> Result<String, AllocError> {
    String::from_str(alloc, "out of range")
}

/// Adds an answer behind those before it, with a semicolon between.
pub(crate) fn add(text: &mut String, answer: &str) -> Result<(), AllocError> {
    if !text.is_empty() {
        text.push_str(";")?;
    }
    text.push_str(answer)
}

/// A text, or - in place of an empty one.
pub(crate) fn or_dash(text: String) -> Result<String, AllocError> {
    let mut text = text;
    if text.is_empty() {
        text.push_str("-")?;
    }
    Ok(text)
}

pub(crate) fn yes_or_no(holds: bool) -> &'static str {
    if holds { "yes" } else { "no" }
}

pub(crate) fn type_of(word: &str) -> PiType {
    match word {
        "0" => PiType::Zero,
        "1" => PiType::One,
        "2" => PiType::Two,
        _ => PiType::Three,
    }
}

pub(crate) fn check_name(check: Option<Check>) -> &'static str {
    match check {
        None => "none",
        Some(Check::Guard) => "guard",
        Some(Check::AppTag) => "apptag",
        Some(Check::RefTag) => "reftag",
    }
}

/// A number of 16 bits in decimal digits, or the largest where the word is none.
pub(crate) fn short(word: &str) -> u16 {
    word.parse::<u16>().unwrap_or(u16::MAX)
}

/// A number of 8 bits in decimal digits, or the largest where the word is none.
pub(crate) fn tiny(word: &str) -> u8 {
    word.parse::<u8>().unwrap_or(u8::MAX)
}
