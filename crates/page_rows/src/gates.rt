//! Which ops wait for which.

ghost use Rattle.std.specs.Prelude.{◌≡◌, ◌<◌, IfOk, length, vec_len};

use crate::kinds::seg_of;
use range_gate::{Footprint, Gate, Reach, Touch, TouchList};
use std::alloc::{AllocError, Global};
use test_table::{number, small};

/// The word without its last letter, and whether that is a w.
fn written(word: &str) -> (&str, bool) {
    match word.strip_suffix('w') {
        Some(front) => (front, true),
        None => (word.strip_suffix('r').unwrap_or(word), false),
    }
}

/// The blocks of a word FIRST+COUNT with w or r behind it.
fn reach_of(word: &str) -> Option<Reach> {
    let (word, writes) = written(word);
    let (first, count) = word.split_once('+')?;
    Some(Reach {
        first: number(first),
        count: small(count),
        writes,
    })
}

/// The bytes of a word PAGE:OFFSET:LENGTH with w or r behind it.
fn touch_of(word: &str) -> Touch {
    let (word, writes) = written(word);
    Touch {
        seg: seg_of(word),
        writes,
    }
}

pub(crate) fn empty(alloc: Global) -> Footprint {
    Footprint {
        alone: false,
        blocks: None,
        bytes: TouchList::from_vec(Vec::new(alloc)),
    }
}

/// The footprint of these words: `alone`, blocks and bytes.
fn footprint_of(alloc: Global, words: &str) -> Result<Footprint, AllocError> {
    let mut print = empty(alloc);
    let mut touches = Vec::new(alloc);
    for word in words.split(' ') {
        if word == "alone" {
            print.alone = true;
        } else if word.contains(':') {
            touches.push(touch_of(word))?;
        } else if let Some(reach) = reach_of(word) {
            print.blocks = Some(reach);
        }
    }
    print.bytes = TouchList::from_vec(touches);
    Ok(print)
}

pub(crate) fn gate_of(alloc: Global, prints: Vec<Footprint>) -> Result<Gate, AllocError>
    requires { vec_len prints < 100 }
    ensures { IfOk result (λ g. length g.phases ≡ vec_len prints) }
{
    Gate::new(alloc, prints)
}

/// Whether the second op waits for the first.
pub(crate) fn waits(alloc: Global, a: Footprint, b: Footprint) -> Result<bool, AllocError> {
    let prints = Vec::from_array(alloc, [a, b])?;
    let gate = gate_of(alloc, prints)?;
    Ok(!gate.may_admit(2))
}

/// What a row about two footprints comes to.
pub(crate) fn answer(alloc: Global, rest: &str) -> Result<Option<String>, AllocError> {
    let Some((first, second)) = rest.split_once(" / ") else {
        return Ok(None);
    };
    let first = footprint_of(alloc, first)?;
    let second = footprint_of(alloc, second)?;
    let waits = waits(alloc, first, second)?;
    Ok(Some(format!(in alloc; "{waits}")?))
}
