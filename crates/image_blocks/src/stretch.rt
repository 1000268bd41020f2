//! Blocks of a unit.

/// So many blocks of a unit from an LBA on.
#[derive(Clone, Copy, Debug, PartialEq, Eq)]
pub struct Stretch {
    /// The unit, from 0.
    pub dev: u32,
    /// The LBA of the first block.
    pub first: u64,
    /// The number of blocks.
    pub count: u32,
}

/// Why an image has no such place.
#[derive(Clone, Copy, Debug, PartialEq, Eq)]
pub enum PlaceFault {
    /// It has no such unit.
    NoDevice,
    /// A block isn't the unit's.
    NoBlock,
}

impl PlaceFault {
    ghost use Rattle.std.specs.Prelude.{◌≡◌};
    ghost use Rattle.image_blocks.specs.Places.{place_fault_name};

    /// The name of the fault, as it is printed.
    pub fn name(self) -> &'static str
        ensures { result.now ≡ place_fault_name self }
    {
        match self {
            PlaceFault::NoDevice => "NoDevice",
            PlaceFault::NoBlock => "NoBlock",
        }
    }
}
