//! Units, outcomes and bytes as rows write them.

use arrayvec::ArrayVec;
use pi_tuple::PiType;
use rig_api::{Outcome, RigFault, UnitSpec};
use sense_codes::Sense;
use std::alloc::{AllocError, Global};
use test_table::{array_of, hex_of, number, small};

pub(crate) fn type_of(word: &str) -> PiType {
    match word {
        "0" => PiType::Zero,
        "1" => PiType::One,
        "2" => PiType::Two,
        _ => PiType::Three,
    }
}

/// The number of a type.
pub(crate) fn type_word(ty: PiType) -> &'static str {
    match ty {
        PiType::Zero => "0",
        PiType::One => "1",
        PiType::Two => "2",
        PiType::Three => "3",
    }
}

/// The unit of a word TYPE:BLOCKS:SIZE:FIRST.
fn unit_of(word: &str) -> UnitSpec {
    let mut parts = word.split(':');
    UnitSpec {
        ty: type_of(parts.next().unwrap_or("")),
        blocks: number(parts.next().unwrap_or("")),
        size: small(parts.next().unwrap_or("")),
        first: number(parts.next().unwrap_or("")),
    }
}

/// The units of these words, as many as there is room for.
pub(crate) fn units_of(words: &str) -> ArrayVec<UnitSpec, 8> {
    let mut units = ArrayVec::new();
    for word in words.split(' ') {
        let _ = units.try_push(unit_of(word));
    }
    units
}

/// The sense of a word: key, code and qualifier in hexadecimal; none of another word.
pub(crate) fn sense_of(word: &str) -> Option<Sense> {
    let [key, asc, ascq] = array_of::<3>(word)?;
    Some(Sense {
        key,
        asc,
        ascq,
        info: None,
    })
}

/// How an outcome is written: the blocks that are done, and the sense or `-`, with its information where it has some.
pub(crate) fn outcome_text(alloc: Global, outcome: Outcome) -> Result<String, AllocError> {
    let done = outcome.done;
    let Some(sense) = outcome.sense else {
        return format!(in alloc; "{done} -");
    };
    let codes = hex_of(alloc, &[sense.key, sense.asc, sense.ascq])?;
    match sense.info {
        Some(info) => format!(in alloc; "{done} {codes}@{info}"),
        None => format!(in alloc; "{done} {codes}"),
    }
}

/// The name of what comes of an opening.
pub(crate) fn opened_word(opened: Result<(), RigFault>) -> &'static str {
    match opened {
        Ok(()) => "ok",
        Err(fault) => fault.name(),
    }
}

/// So many bytes from one on, where there are such.
pub(crate) fn part(bytes: &[u8], at: u64, len: u64) -> Option<&[u8]> {
    let behind = bytes.get(usize::try_from(at).ok()?..)?;
    behind.get(..usize::try_from(len).ok()?)
}
