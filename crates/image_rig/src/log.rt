//! The records; their labels stand in one vector, one after another, and so do their moved bytes.

ghost use Rattle.std.specs.Prelude.{◌≡◌, ◌+◌, ◌^◌, ◌≤◌, ◌<◌, true, length};
ghost use Rattle.image_rig.specs.Entries.{are_inside, are_keyed, spare};

use crate::kept::Kept;
use fault_schedule::Label;

/// The records of a rig's exchanges, in order: below 2^32, with those for which there is room.
#[derive(Drop)]
pub struct Log {
    pub(crate) kept: Vec<Kept>,
    pub(crate) labels: Vec<Label>,
    pub(crate) moved: Vec<u8>,
    /// How many further records are promised. The capacity may be more than their number may be.
    pub(crate) free: usize,
    ghost bound: { length kept.items + free < 2 ^ 32 },
    ghost have: { free ≤ spare kept },
    ghost inside: { are_inside (length labels.items) (length moved.items) kept.items ≡ true },
    ghost keyed: { are_keyed kept.items ≡ true },
}
