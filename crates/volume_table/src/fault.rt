//! What can be wrong with the entries of a table.

ghost use Rattle.std.specs.Prelude.{◌≡◌};
ghost use Rattle.volume_table.specs.Faults.{kind_name, kind_number};

/// Why no table is made.
#[derive(Clone, Copy, Debug, PartialEq, Eq)]
pub enum VolumeFault {
    /// An entry is at fault.
    At {
        /// The number of the entry, from 1.
        entry: u32,
        /// Its first fault.
        kind: VolumeKind,
    },
    /// There is no memory for the table.
    Memory,
}

/// What is wrong with an entry. The first fault is named, in the order `Gap`, `UnknownDevice`,
/// `BadChunk`, `BeforeStart`, `PastEnd`, `Overlap`, `MixedTypes`, `OtherSize`.
#[derive(Clone, Copy, Debug, PartialEq, Eq)]
pub enum VolumeKind {
    /// The entry doesn't start at the sum of the lengths before it.
    Gap,
    /// A device number isn't below the number of devices.
    UnknownDevice,
    /// An extent ends past its device's last block.
    PastEnd,
    /// An extent shares a block with another leg or an earlier entry.
    Overlap,
    /// A device has another type than the first entry's first device.
    MixedTypes,
    /// The length of a stripe isn't a multiple of a chunk on each leg.
    BadChunk,
    /// An extent begins below its device's first address.
    BeforeStart,
    /// A device has another block size than the volume.
    OtherSize,
}

impl VolumeKind {
    /// The number of the kind, from 1 to 8 as the kinds are declared.
    pub fn number(self) -> u8
        ensures { result ≡ kind_number self }
    {
        match self {
            VolumeKind::Gap => 1,
            VolumeKind::UnknownDevice => 2,
            VolumeKind::PastEnd => 3,
            VolumeKind::Overlap => 4,
            VolumeKind::MixedTypes => 5,
            VolumeKind::BadChunk => 6,
            VolumeKind::BeforeStart => 7,
            VolumeKind::OtherSize => 8,
        }
    }

    /// The name of the kind.
    pub fn name(self) -> &'static str
        ensures { result.now ≡ kind_name self }
    {
        match self {
            VolumeKind::Gap => "Gap",
            VolumeKind::UnknownDevice => "UnknownDevice",
            VolumeKind::PastEnd => "PastEnd",
            VolumeKind::Overlap => "Overlap",
            VolumeKind::MixedTypes => "MixedTypes",
            VolumeKind::BadChunk => "BadChunk",
            VolumeKind::BeforeStart => "BeforeStart",
            VolumeKind::OtherSize => "OtherSize",
        }
    }
}
