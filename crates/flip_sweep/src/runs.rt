//! Runs over formatted units, in memory.

ghost use Rattle.std.specs.Prelude.{◌≡◌, List, IfErr, IfOk, length, true};
ghost use Rattle.run_command.specs.Working.{IsSound};
ghost use Rattle.rig_api.specs.Headers.{image_size, is_layout};
ghost use Rattle.rig_api.specs.Image.{formatted};
ghost use Rattle.rig_api.specs.declared.units.UnitSpec.{UnitSpec as AnyUnit};
ghost use Rattle.flip_sweep.specs.Comes.{came_to, seen_of};
ghost use Rattle.flip_sweep.specs.Swept.{CauseNoRun};

use call_refusal::Refusal;
use dix_base::CalmStore;
use image_rig::ImageRig;
use page_pool::PagePool;
use rig_api::{Rig, UnitSpec};
use run_command::{Finished, run_script};
use script_text::Script;
use stack_ops::Reply;
use std::alloc::{AllocError, Global};

/// A run that came to its end, and the rig over the image that it left.
#[derive(Drop)]
pub(crate) struct Came {
    run: Finished,
    rig: ImageRig<CalmStore>,
}

impl Came {
    /// What its ops replied.
    pub(crate) fn replies(&self) -> &[Reply]
        ensures { result.now ≡ self.now.run.stack.replies.items }
    {
        self.run.stack.replies()
    }

    /// Its pages, and behind them those of the block layer.
    pub(crate) fn pool(&self) -> &PagePool
        ensures { result.now ≡ self.now.run.stack.pool }
    {
        self.run.stack.pool()
    }

    /// The image that it left.
    pub(crate) fn image(&self) -> &[u8]
        ensures { result.now ≡ self.now.rig.store.bytes }
    {
        self.rig.store().bytes()
    }
}

/// A rig over the formatted image of these units, in memory.
pub(crate) fn fresh_rig(
    alloc: Global,
    units: &[UnitSpec],
) -> Result<ImageRig<CalmStore>, AllocError>
    requires { is_layout units.now ≡ true }
    ensures { IfOk result (λ rig. rig.store.bytes ≡ formatted units.now) }
{
    let mut rig = ImageRig::new(alloc, CalmStore::new(Vec::new(alloc)));
    match rig.format(alloc, "sweep", units) {
        Ok(()) => Ok(rig),
        Err(_) => Err(AllocError),
    }
}

/// The run of a script over a copy of this image.
pub(crate) fn run_over(alloc: Global, image: &[u8], script: Script) -> Result<Came, Refusal>
    requires { IsSound script }
    ensures comes { (units : List AnyUnit) → is_layout units ≡ true → image.now ≡ formatted units → IfOk result (λ came. seen_of came script.pages ≡ came_to script units) }
    ensures long { (units : List AnyUnit) → is_layout units ≡ true → image.now ≡ formatted units → IfOk result (λ came. length came.rig.store.bytes ≡ image_size units) }
    ensures cause { (units : List AnyUnit) → is_layout units ≡ true → image.now ≡ formatted units → IfErr result (λ r. CauseNoRun r script (formatted units)) }
{
    let bytes = Vec::from_slice(alloc, image)?;
    let mut rig = ImageRig::new(alloc, CalmStore::new(bytes));
    let run = run_script(alloc, "sweep", script, &mut rig)?;
    Ok(Came { run, rig })
}
