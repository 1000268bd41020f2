//! Words that many rows have.

use pi_tuple::PiType;
use std::alloc::{AllocError, Global};

/// What comes of a call whose numbers are none that it takes.
pub(crate) fn out_of_range(alloc: Global) -> Result<String, AllocError> {
    String::from_str(alloc, "out of range")
}

/// Adds a text behind those before it, with this between.
pub(crate) fn add(text: &mut String, between: &str, part: &str) -> Result<(), AllocError> {
    if !text.is_empty() {
        text.push_str(between)?;
    }
    text.push_str(part)
}

/// A device, an address, and how many blocks follow one another from there on.
pub(crate) fn place_text(alloc: Global, place: (u32, u64), run: u64) -> Result<String, AllocError> {
    let (dev, lba) = place;
    format!(in alloc; "{dev} {lba} {run}")
}

pub(crate) fn type_of(word: &str) -> PiType {
    match word {
        "0" => PiType::Zero,
        "1" => PiType::One,
        "2" => PiType::Two,
        _ => PiType::Three,
    }
}

pub(crate) fn type_text(ty: PiType) -> &'static str {
    match ty {
        PiType::Zero => "0",
        PiType::One => "1",
        PiType::Two => "2",
        PiType::Three => "3",
    }
}
