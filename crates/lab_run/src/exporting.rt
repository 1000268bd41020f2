//! Exporting blocks of an image.

ghost use Rattle.call_verdict.specs.Verdicts.{IsPassedOn};
ghost use Rattle.std.specs.Prelude.{◌≡◌, ℕ, List, Option, Some, IfOk};
ghost use Rattle.dix_base.specs.Stores.{StoreState};
ghost use Rattle.lab_run.specs.declared.command.Command.{Command};
ghost use Rattle.rig_api.specs.State.{RigState};
ghost use Rattle.call_verdict.specs.Words.{word_bytes};
ghost use Rattle.lab_run.specs.Calls.{on_first};
ghost use Rattle.lab_run.specs.Commands.{Came};

use crate::dumps::{dumped, fits_there};
use crate::finding::find;
use crate::place::PlaceWord;
use crate::refusal::Refusal;
use crate::showing::ROOM;
use call_verdict::{Status, image_of};
use dix_base::{Sink, Store};
use image_text::{Layout, export_blocks};
use std::alloc::Global;

/// `export IMAGE PLACE LAYOUT`: writes the blocks of the place in the layout.
pub(crate) fn export<A: Store, O: Sink>(
    alloc: Global,
    words: &[String],
    place: PlaceWord,
    layout: Layout,
    store: &mut A,
    out: &mut O,
) -> Result<Status, Refusal>
    ensures came { (left : Option (List ℕ)) (reads : ℕ) (rig : RigState) (second : StoreState) → Came (Some (Command.Export place layout)) result
        (on_first (word_bytes words.now) (A.state store.old) (A.state store.new) left reads rig second) (O.taken out.old) (O.taken out.new) (O.faults out.old) (O.faults out.new) }
    ensures handed { IfOk result (λ status. IsPassedOn status (O.passed out.new) (O.taken out.new)) }
{
    let mut room = vec![in alloc; 0u8; ROOM]?;
    let found = find(alloc, store, image_of(words), place)?;
    if !fits_there(&found.image, found.at, layout) {
        return Err(Refusal::NoTuples);
    }
    let ended = export_blocks(store, &found.image, found.at, layout, &mut room, out);
    Ok(dumped(ended))
}
