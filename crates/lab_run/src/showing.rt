//! Showing an image.

ghost use Rattle.std.specs.Prelude.{◌≡◌, ℕ, List, Option, Some, IfOk};
ghost use Rattle.image_text.specs.UnitText.{units_text};
ghost use Rattle.call_verdict.specs.Verdicts.{IsPassedOn, Written};
ghost use Rattle.dix_base.specs.Stores.{StoreState};
ghost use Rattle.image_blocks.specs.Images.{units_open};
ghost use Rattle.lab_run.specs.declared.command.Command.{Command};
ghost use Rattle.rig_api.specs.State.{RigState};
ghost use Rattle.call_verdict.specs.Words.{word_bytes};
ghost use Rattle.lab_run.specs.Calls.{on_first};
ghost use Rattle.lab_run.specs.Commands.{Came};
ghost use Rattle.lab_run.specs.Showing.{shown_status};

use crate::finding::find;
use crate::place::PlaceWord;
use crate::refusal::Refusal;
use call_verdict::{Status, image_of, status_for};
use dix_base::{Failed, Sink, Store};
use image_blocks::{Image, WalkFault, open_image};
use image_text::Tally;
use std::alloc::Global;

/// Writes the units of an image.
fn list_units<O: Sink>(image: &Image, out: &mut O) -> Status
    ensures written { Written Status.Whole (units_text (units_open image.now)) (O.taken out.old) (O.taken out.new) (O.faults out.old) (O.faults out.new) result }
    ensures handed { IsPassedOn result (O.passed out.new) (O.taken out.new) }
{
    match image_text::show_units(image, out) {
        Ok(()) => Status::Whole,
        Err(Failed) => Status::WriteFault,
    }
}

/// The status of blocks that were shown.
fn status_of(ended: Result<Tally, WalkFault>) -> Status
    ensures { result ≡ shown_status ended }
{
    match ended {
        Ok(tally) => status_for(tally.bad > 0),
        Err(WalkFault::Store) => Status::RigFault,
        Err(WalkFault::Sink) => Status::WriteFault,
    }
}

/// `show IMAGE`: writes the units of the image.
pub(crate) fn show_units<A: Store, O: Sink>(
    alloc: Global,
    words: &[String],
    store: &mut A,
    out: &mut O,
) -> Result<Status, Refusal>
    ensures came { (left : Option (List ℕ)) (reads : ℕ) (rig : RigState) (second : StoreState) → Came (Some Command.ShowUnits) result
        (on_first (word_bytes words.now) (A.state store.old) (A.state store.new) left reads rig second) (O.taken out.old) (O.taken out.new) (O.faults out.old) (O.faults out.new) }
    ensures handed { IfOk result (λ status. IsPassedOn status (O.passed out.new) (O.taken out.new)) }
{
    let image = open_image(alloc, store, image_of(words))?;
    Ok(list_units(&image, out))
}

/// `show IMAGE PLACE [--bad]`: writes the blocks of the place, or those at fault alone.
pub(crate) fn show_blocks<A: Store, O: Sink>(
    alloc: Global,
    words: &[String],
    only_bad: bool,
    place: PlaceWord,
    store: &mut A,
    out: &mut O,
) -> Result<Status, Refusal>
    ensures came { (left : Option (List ℕ)) (reads : ℕ) (rig : RigState) (second : StoreState) → Came (Some (Command.ShowBlocks only_bad place)) result
        (on_first (word_bytes words.now) (A.state store.old) (A.state store.new) left reads rig second) (O.taken out.old) (O.taken out.new) (O.faults out.old) (O.faults out.new) }
    ensures handed { IfOk result (λ status. IsPassedOn status (O.passed out.new) (O.taken out.new)) }
{
    let mut room = vec![in alloc; 0u8; ROOM]?;
    let found = find(alloc, store, image_of(words), place)?;
    let ended = image_text::show_blocks(store, &found.image, found.at, &mut room, only_bad, out);
    Ok(status_of(ended))
}

/// So many bytes of blocks are read at once, at most: 64 of the longest blocks. A file is read ahead by 262,144 bytes,
/// and reads of as many come straight into their place.
pub(crate) const ROOM: usize = 64 * 4104;
