//! Comparing places of two images.

ghost use Rattle.call_verdict.specs.Verdicts.{IsPassedOn};
ghost use Rattle.std.specs.Prelude.{◌≡◌, ℕ, List, Option, Some, eqb, IfOk};
ghost use Rattle.image_blocks.specs.Images.{units_open};
ghost use Rattle.image_blocks.specs.Places.{IsStretch, spec_of};
ghost use Rattle.lab_run.specs.declared.command.Command.{Command};
ghost use Rattle.rig_api.specs.State.{RigState};
ghost use Rattle.call_verdict.specs.Words.{word_bytes};
ghost use Rattle.lab_run.specs.Calls.{on_both, second_in};
ghost use Rattle.lab_run.specs.Commands.{Came};
ghost use Rattle.lab_run.specs.Comparing.{compared_status};

use crate::finding::{Found, find};
use crate::place::PlaceWord;
use crate::refusal::Refusal;
use call_verdict::{Status, image_of, status_for};
use dix_base::{Sink, Store};
use image_text::{DiffFault, TwoPlaces, diff_blocks};
use std::alloc::Global;

/// The second image that the words of a command name: the fourth of them, or nothing where they are fewer.
fn second_of(words: &[String]) -> &str
    ensures { result.now ≡ second_in (word_bytes words.now) }
{
    if words.len() < 4 {
        return "";
    }
    words[3].as_str()
}

/// Whether the blocks of two places have the same size.
fn are_one_size(one: &Found, other: &Found) -> bool
    requires one { IsStretch (units_open one.now.image) one.now.at }
    requires other { IsStretch (units_open other.now.image) other.now.at }
    ensures { result ≡ eqb (spec_of (units_open one.now.image) one.now.at.dev).size (spec_of (units_open other.now.image) other.now.at.dev).size }
{
    let unit = one.image.units()[one.at.dev as usize];
    let other_unit = other.image.units()[other.at.dev as usize];
    unit.size == other_unit.size
}

/// The status of places that were compared.
fn status_of(ended: Result<u32, DiffFault>) -> Status
    ensures { result ≡ compared_status ended }
{
    match ended {
        Ok(differ) => status_for(differ > 0),
        Err(DiffFault::First) => Status::RigFault,
        Err(DiffFault::Second) => Status::RigFault,
        Err(DiffFault::Sink) => Status::WriteFault,
    }
}

/// `diff IMAGE PLACE IMAGE PLACE`: writes in which blocks the places differ.
pub(crate) fn diff<A: Store, B: Store, O: Sink>(
    alloc: Global,
    words: &[String],
    one: PlaceWord,
    other: PlaceWord,
    first: &mut A,
    second: &mut B,
    out: &mut O,
) -> Result<Status, Refusal>
    ensures came { (left : Option (List ℕ)) (reads : ℕ) (rig : RigState) → Came (Some (Command.Diff one other)) result
        (on_both (word_bytes words.now) (A.state first.old) (A.state first.new) (B.state second.old) (B.state second.new) left reads rig)
        (O.taken out.old) (O.taken out.new) (O.faults out.old) (O.faults out.new) }
    ensures handed { IfOk result (λ status. IsPassedOn status (O.passed out.new) (O.taken out.new)) }
{
    let mut room = vec![in alloc; 0u8; 2 * SIDE]?;
    let here = find(alloc, first, image_of(words), one)?;
    let there = match find(alloc, second, second_of(words), other) {
        Ok(there) => there,
        Err(unfound) => return Err(Refusal::of_second(unfound)),
    };
    if !are_one_size(&here, &there) {
        return Err(Refusal::OtherSize);
    }
    if here.at.count != there.at.count {
        return Err(Refusal::OtherCount);
    }
    let sides = TwoPlaces {
        image: &here.image,
        place: here.at,
        other_image: &there.image,
        to: there.at,
    };
    let ended = diff_blocks(first, second, sides, &mut room, out);
    Ok(status_of(ended))
}

/// So many bytes of blocks are read at once of each side, at most. Two rooms as long as `ROOM` would take a megabyte,
/// with what two files read ahead.
const SIDE: usize = 65536;
