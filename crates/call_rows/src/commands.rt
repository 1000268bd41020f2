//! The words that the program is called with.

use call_verdict::{UnitList, image_of};
use dix_run::{Command, command_of};
use pi_tuple::PiType;
use std::alloc::{AllocError, Global};

/// The words between bars; no words at all of `none`.
fn words_of(alloc: Global, line: &str) -> Result<Vec<String>, AllocError> {
    let mut words = Vec::new(alloc);
    if line == "none" {
        return Ok(words);
    }
    for word in line.split('|') {
        words.push(String::from_str(alloc, word)?)?;
    }
    Ok(words)
}

fn number_of(ty: PiType) -> u8 {
    match ty {
        PiType::Zero => 0,
        PiType::One => 1,
        PiType::Two => 2,
        PiType::Three => 3,
    }
}

/// The units of an image that is ordered.
fn units_text(alloc: Global, units: UnitList) -> Result<String, AllocError> {
    let mut text = format!(in alloc; "format")?;
    for unit in units.as_slice() {
        let ty = number_of(unit.ty);
        let part = format!(in alloc; " {ty}:{}:{}:{}", unit.blocks, unit.size, unit.first)?;
        text.push_str(part.as_str())?;
    }
    Ok(text)
}

fn text_of(alloc: Global, command: Command) -> Result<String, AllocError> {
    match command {
        Command::Run => String::from_str(alloc, "run"),
        Command::Trace => String::from_str(alloc, "trace"),
        Command::Migrate => String::from_str(alloc, "migrate"),
        Command::Mirror => String::from_str(alloc, "mirror"),
        Command::Scrub => String::from_str(alloc, "scrub"),
        Command::Nvme => String::from_str(alloc, "nvme"),
        Command::Modes(ty) => {
            let ty = number_of(ty);
            format!(in alloc; "modes {ty}")
        }
        Command::Big { n, seed } => format!(in alloc; "big {n} {seed}"),
        Command::Format(units) => units_text(alloc, units),
    }
}

/// The command of some words, with its units or numbers.
pub(crate) fn command_row(alloc: Global, line: &str) -> Result<String, AllocError> {
    match command_of(&words_of(alloc, line)?) {
        Some(command) => text_of(alloc, command),
        None => String::from_str(alloc, "no command"),
    }
}

/// The image that some words name, in brackets.
pub(crate) fn image_row(alloc: Global, line: &str) -> Result<String, AllocError> {
    let words = words_of(alloc, line)?;
    let image = image_of(&words);
    format!(in alloc; "[{image}]")
}
