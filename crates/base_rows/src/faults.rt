//! Schedules of faults, and what they do to what crosses.

use crate::names::{add, none, or_dash, yes_or_no};
use arrayvec::ArrayVec;
use fault_schedule::{FaultKind, FaultLine, FaultList, Label, ShortBytes, Tamper};
use std::alloc::{AllocError, Global};
use test_table::{bytes_of, crossing_of, crossing_word, cut, hex_of, small};

/// The first 32 of these bytes.
fn short(bytes: &[u8]) -> ShortBytes {
    let mut held = ArrayVec::new();
    for byte in bytes {
        let _ = held.try_push(*byte);
    }
    ShortBytes::from_array(held)
}

fn kind_of(alloc: Global, word: &str, amount: &str) -> Result<FaultKind, AllocError> {
    if word == "shift" {
        let by = amount.parse::<i64>().unwrap_or(0);
        return Ok(FaultKind::Shift { by });
    }
    if word == "keep" {
        return Ok(FaultKind::Keep {
            bytes: small(amount),
        });
    }
    if word == "fail" {
        return Ok(FaultKind::Fail);
    }
    let (off, bytes) = cut(amount);
    Ok(FaultKind::Flip {
        off: small(off),
        bytes: short(&bytes_of(alloc, bytes)?),
    })
}

/// A line of a schedule: the kind, the op, the block, the crossing, and by how many blocks, which bytes, how many, or nothing.
fn line_of(alloc: Global, words: &str) -> Result<FaultLine, AllocError> {
    let (word, rest) = cut(words);
    let (op, rest) = cut(rest);
    let (k, rest) = cut(rest);
    let (at, amount) = cut(rest);
    Ok(FaultLine {
        op: small(op),
        k: small(k),
        at: crossing_of(at),
        kind: kind_of(alloc, word, amount)?,
    })
}

/// The schedule of lines with semicolons between.
fn list_of(alloc: Global, schedule: &str) -> Result<FaultList, AllocError> {
    let mut lines = Vec::new(alloc);
    for line in schedule.split(';') {
        lines.push(line_of(alloc, line)?)?;
    }
    Ok(FaultList::from_vec(lines))
}

/// The faults of a schedule.
pub(crate) fn tamper_of(alloc: Global, schedule: &str) -> Result<Tamper, AllocError> {
    Ok(Tamper::new(list_of(alloc, schedule)?))
}

fn line_text(alloc: Global, line: &FaultLine) -> Result<String, AllocError> {
    let (op, k, at) = (line.op, line.k, crossing_word(line.at));
    match &line.kind {
        FaultKind::Flip { off, bytes } => {
            let bytes = hex_of(alloc, bytes.as_slice())?;
            format!(in alloc; "flip {op} {k} {at} {off} {bytes}")
        }
        FaultKind::Shift { by } => format!(in alloc; "shift {op} {k} {at} {by}"),
        FaultKind::Keep { bytes } => format!(in alloc; "keep {op} {k} {at} {bytes}"),
        FaultKind::Fail => format!(in alloc; "fail {op} {k} {at}"),
    }
}

/// The lines of a copy of the schedule.
fn copied(alloc: Global, schedule: &str) -> Result<String, AllocError> {
    let copy = list_of(alloc, schedule)?.copy(alloc)?;
    let mut text = String::new(alloc);
    for line in copy.as_slice() {
        add(&mut text, line_text(alloc, line)?.as_str())?;
    }
    Ok(text)
}

/// The block of these bytes behind a crossing, by the crossing, the op, the block and the bytes.
fn crossed(alloc: Global, schedule: &str, words: &str) -> Result<String, AllocError> {
    let (at, rest) = cut(words);
    let (op, rest) = cut(rest);
    let (k, bytes) = cut(rest);
    let label = Label {
        op: small(op),
        k: small(k),
    };
    let mut block = bytes_of(alloc, bytes)?;
    tamper_of(alloc, schedule)?.apply(crossing_of(at), label, &mut block);
    hex_of(alloc, &block)
}

/// By how many blocks an op's address is off at a crossing.
fn shifted(alloc: Global, schedule: &str, words: &str) -> Result<String, AllocError> {
    let (at, op) = cut(words);
    let by = tamper_of(alloc, schedule)?.shift(crossing_of(at), small(op));
    format!(in alloc; "{by}")
}

/// How many bytes of a block are stored, by the op and the block; `-` where no line says it.
fn kept(alloc: Global, schedule: &str, words: &str) -> Result<String, AllocError> {
    let (op, k) = cut(words);
    let label = Label {
        op: small(op),
        k: small(k),
    };
    match tamper_of(alloc, schedule)?.keep(label) {
        Some(bytes) => format!(in alloc; "{bytes}"),
        None => String::from_str(alloc, "-"),
    }
}

/// Whether the medium fails a block, by the op and the block.
fn failing(alloc: Global, schedule: &str, words: &str) -> Result<String, AllocError> {
    let (op, k) = cut(words);
    let label = Label {
        op: small(op),
        k: small(k),
    };
    let fails = tamper_of(alloc, schedule)?.fails(label);
    String::from_str(alloc, yes_or_no(fails))
}

pub(crate) fn answer(alloc: Global, schedule: &str, words: &str) -> Result<String, AllocError> {
    let (call, rest) = cut(words);
    match call {
        "short" => or_dash(hex_of(alloc, short(&bytes_of(alloc, rest)?).as_slice())?),
        "copy" => copied(alloc, schedule),
        "cross" => crossed(alloc, schedule, rest),
        "shift" => shifted(alloc, schedule, rest),
        "keep" => kept(alloc, schedule, rest),
        "fail" => failing(alloc, schedule, rest),
        _ => none(alloc),
    }
}
