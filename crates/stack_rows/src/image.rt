//! A formatted image in memory.

use call_verdict::unit_of;
use dix_base::MemStore;
use image_rig::ImageRig;
use rig_api::UnitSpec;
use std::alloc::{AllocError, Global};
use test_rig::formatted;

#[derive(Drop)]
pub(crate) struct Image {
    pub(crate) units: Vec<UnitSpec>,
    bytes: Vec<u8>,
}

impl Image {
    /// No image.
    pub(crate) fn none(alloc: Global) -> Image {
        Image {
            units: Vec::new(alloc),
            bytes: Vec::new(alloc),
        }
    }

    /// The freshly formatted image of the units that these words name; no bytes where an image can't have them.
    pub(crate) fn of(alloc: Global, words: &str) -> Result<Image, AllocError> {
        let mut units = Vec::new(alloc);
        for word in words.split(' ') {
            if let Some(unit) = unit_of(word.as_bytes()) {
                units.push(unit)?;
            }
        }
        let bytes = formatted(alloc, &units)?;
        Ok(Image { units, bytes })
    }

    /// A rig over the image, whose store fails at these calls.
    pub(crate) fn laid(
        &self,
        alloc: Global,
        fails: &[u64],
    ) -> Result<ImageRig<MemStore>, AllocError> {
        let bytes = Vec::from_slice(alloc, &self.bytes)?;
        let fails = Vec::from_slice(alloc, fails)?;
        Ok(ImageRig::new(alloc, MemStore::new(bytes, fails)))
    }
}
