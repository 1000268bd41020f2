//! The table of a volume's extents: where each virtual block lies, and what can be wrong with the
//! entries that a table is made of.
#![tactic(auto)]

mod device;
mod entry;
mod entry_list;
mod extent;
mod fault;
mod judge;
mod table;

pub use device::DeviceInfo;
pub use entry::Entry;
pub use entry_list::EntryList;
pub use extent::Extent;
pub use fault::{VolumeFault, VolumeKind};
pub use table::VolumeTable;

/// An entry of a volume's table has at most this many blocks.
pub const MOST_LENGTH: u32 = 1_048_576;
