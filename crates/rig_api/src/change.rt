//! What is done to a stored block behind the target's back.

use fault_schedule::ShortBytes;

/// A change of a stored block that no command makes.
#[derive(Drop)]
pub enum Change {
    /// Alters the stored bytes: that at byte `off` is xored with the first of `bytes`, and so on,
    /// as far as the block reaches.
    Flip { off: u32, bytes: ShortBytes },
    /// Copies the stored block at this LBA of this device, with its tuple.
    Copy { dev: u32, lba: u64 },
}
