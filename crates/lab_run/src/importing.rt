//! Importing blocks into an image.

ghost use Rattle.call_verdict.specs.Verdicts.{IsPassedOn};
ghost use Rattle.std.specs.Prelude.{◌≡◌, Some, IfOk};
ghost use Rattle.dix_base.specs.Stores.{StoreState};
ghost use Rattle.lab_run.specs.declared.command.Command.{Command};
ghost use Rattle.rig_api.specs.State.{RigState};
ghost use Rattle.call_verdict.specs.Words.{word_bytes};
ghost use Rattle.lab_run.specs.Calls.{on_input};
ghost use Rattle.lab_run.specs.Commands.{Came};

use crate::dumps::{fits_there, imported_line, sized};
use crate::finding::find;
use crate::place::PlaceWord;
use crate::refusal::Refusal;
use call_verdict::{Status, finish, image_of};
use dix_base::{Sink, Source, Store};
use image_text::{Layout, import_blocks};
use std::alloc::Global;

/// `import IMAGE PLACE LAYOUT`: puts what the source gives in the place.
pub(crate) fn import<S: Source, A: Store, O: Sink>(
    alloc: Global,
    words: &[String],
    place: PlaceWord,
    layout: Layout,
    input: &mut S,
    store: &mut A,
    out: &mut O,
) -> Result<Status, Refusal>
    ensures came { (rig : RigState) (second : StoreState) → Came (Some (Command.Import place layout)) result
        (on_input (word_bytes words.now) (A.state store.old) (A.state store.new) (S.left input.old) (S.left input.new) (S.faults input.old) (S.faults input.new) rig second)
        (O.taken out.old) (O.taken out.new) (O.faults out.old) (O.faults out.new) }
    ensures handed { IfOk result (λ status. IsPassedOn status (O.passed out.new) (O.taken out.new)) }
{
    let mut room = vec![in alloc; 0u8; STRETCH]?;
    let found = find(alloc, store, image_of(words), place)?;
    if !fits_there(&found.image, found.at, layout) {
        return Err(Refusal::NoTuples);
    }
    sized(input, &found.image, found.at, layout)?;
    let count = import_blocks(store, &found.image, found.at, layout, input, &mut room)?;
    Ok(finish(out, imported_line(count).as_slice(), Status::Whole))
}

/// So many bytes of blocks are written at once, at most: a write that fails may leave anything in as many.
pub(crate) const STRETCH: usize = 65536;
