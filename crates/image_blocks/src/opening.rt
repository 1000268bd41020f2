//! Opening an image.

ghost use Rattle.image_rig.specs.Heads.{HasLooked};
ghost use Rattle.image_blocks.specs.Images.{IsJudged};

use crate::image::Image;
use dix_base::Store;
use image_rig::{ImageHead, look};
use rig_api::RigFault;
use std::alloc::Global;

/// Opens the image of this name, and judges its head. `BadMagic`, `BadHeader` and `BadLength` come exactly
/// where its head says so, `Failed` only where the count of faults rose, `Memory` for want of it.
pub fn open_image<S: Store>(alloc: Global, store: &mut S, name: &str) -> Result<Image, RigFault>
    ensures judged { IsJudged result (S.state store.old).bytes (S.state store.new).length }
    ensures looked { HasLooked result name.now (S.state store.old) (S.state store.new) }
{
    let mut head = ImageHead::none();
    look(alloc, store, &mut head, name)?;
    Ok(Image {
        units: head.units(),
    })
}
