//! A unit in a store.

ghost use Rattle.std.specs.Prelude.{◌≡◌, ◌+◌, ◌≤◌};
ghost use Rattle.pi_tuple.specs.declared.TheConstants.{TUPLE};
ghost use Rattle.target_model.specs.Served.{block_bytes, shape_in};

use pi_tuple::PiType;
use rig_api::{UnitSpec, stored_size};

/// A unit whose blocks lie in a store, one after another.
#[derive(Clone, Copy, Debug, PartialEq, Eq)]
pub struct LogicalUnit {
    /// The protection type.
    pub ty: PiType,
    /// The number of blocks.
    pub blocks: u64,
    /// The byte of the store at which the first block begins.
    pub at: u64,
    /// The bytes of data in a block: 512 or 4,096.
    pub size: u32,
    /// The LBA of the first block.
    pub first: u64,
}

impl LogicalUnit {
    pub(crate) fn shape(&self) -> UnitSpec
        ensures { result ≡ shape_in self.now }
    {
        UnitSpec {
            ty: self.ty,
            blocks: self.blocks,
            size: self.size,
            first: self.first,
        }
    }
}

/// The bytes of a block as it is stored.
pub(crate) fn block_bytes(unit: UnitSpec) -> usize
    ensures value { result ≡ block_bytes unit }
    ensures bound { result ≤ unit.size + TUPLE }
{
    stored_size(unit.ty, unit.size)
}
