//! At most eight units, with no memory taken.

ghost use Rattle.std.specs.Prelude.{◌≡◌};

use arrayvec::ArrayVec;
use rig_api::UnitSpec;
use std::marker::Model;

/// The units of an image that is ordered.
#[derive(Drop)]
pub struct UnitList {
    held: ArrayVec<UnitSpec, 8>,
}

impl Model for UnitList {
    ghost use Rattle.std.specs.Prelude.{List};
    ghost use Rattle.rig_api.specs.declared.units.UnitSpec.{UnitSpec};

    ghost Value = { List UnitSpec };

    ghost view = { λ u. u.held.items };
}

impl UnitList {
    /// The list of these units, in their order.
    pub fn from_array(units: ArrayVec<UnitSpec, 8>) -> UnitList
        ensures { result ≡ units.items }
    {
        UnitList { held: units }
    }

    /// The units, in their order.
    pub fn as_slice(&self) -> &[UnitSpec]
        ensures { result.now ≡ self.now }
    {
        self.held.as_slice()
    }
}
