//! Extents on a device, which may share blocks.

ghost use Rattle.std.specs.Prelude.{◌≡◌, ◌+◌, ◌≤◌, ◌↔◌, nat_lt, IsTrue};
ghost use Rattle.std.specs.List.{list_any};
ghost use Rattle.volume_table.specs.Faults.{do_any_meet, do_meet};
ghost use Rattle.volume_table.specs.Tables.{ShareBlock};

/// Blocks that an entry takes on one device.
#[derive(Clone, Copy, Debug, Default, PartialEq, Eq)]
pub struct Extent {
    /// The number of the device.
    pub dev: u32,
    /// The address (LBA) of the first block.
    pub at: u64,
    /// How many blocks there are.
    pub len: u64,
}

impl Extent {
    fn begins_in_time(&self, other: &Extent) -> bool
        ensures { result ≡ nat_lt self.now.at (other.now.at + other.now.len) }
    {
        self.at < other.at || self.at - other.at < other.len
    }

    /// Whether they share a block. An extent has at least one.
    pub fn meets(&self, other: &Extent) -> bool
        ensures value { result ≡ do_meet self.now other.now }
        ensures shared { 1 ≤ self.now.len → 1 ≤ other.now.len → (IsTrue result ↔ ShareBlock self.now other.now) }
    {
        self.dev == other.dev && self.begins_in_time(other) && other.begins_in_time(self)
    }

    fn meets_any(&self, others: &[Extent]) -> bool
        ensures { result ≡ list_any (do_meet self.now) others.now }
    {
        others.iter().any(|other| self.meets(other))
    }
}

/// Whether one of these extents shares a block with one of those.
pub(crate) fn do_any_meet(extents: &[Extent], others: &[Extent]) -> bool
    ensures { result ≡ do_any_meet extents.now others.now }
{
    extents.iter().any(|extent| extent.meets_any(others))
}
