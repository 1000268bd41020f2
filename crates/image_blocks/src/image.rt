//! An image that was opened and judged.

ghost use Rattle.std.specs.Prelude.{◌≡◌, true};
ghost use Rattle.rig_api.specs.Headers.{is_layout};

use arrayvec::ArrayVec;
use rig_api::UnitSpec;

/// The units of an image whose head is right.
#[derive(Drop)]
pub struct Image {
    pub(crate) units: ArrayVec<UnitSpec, 8>,
    ghost layout: { is_layout units.items ≡ true },
}

impl Image {
    ghost use Rattle.image_blocks.specs.Images.{units_open};

    /// The units, in the order in which they lie.
    pub fn units(&self) -> &[UnitSpec]
        ensures { result.now ≡ units_open self.now }
    {
        &self.units
    }
}
