//! An image in a store: it is opened and judged, a place in it is judged, and stretches of its blocks are
//! read and written, each by one call of the store.
#![tactic(auto)]

ghost use Rattle.std.specs.Prelude.{◌≡◌, ◌/◌, ◌<◌, min};

mod blocks;
mod fault;
mod image;
mod opening;
mod places;
mod stretch;

pub use blocks::{read_blocks, write_blocks};
pub use fault::WalkFault;
pub use image::Image;
pub use opening::open_image;
pub use places::{behind_of, block_bytes, front_of, part_of, whole_of};
pub use stretch::{PlaceFault, Stretch};

/// By one call no more blocks are read or written.
pub const MOST_AT_ONCE: usize = 65536;

/// So many blocks of this length are read or written at once: those that lie in a room, at most `MOST_AT_ONCE`.
pub fn blocks_in(room: usize, len: usize) -> u32
    requires { 0 < len }
    ensures { result ≡ min (room / len) MOST_AT_ONCE }
{
    (room / len).min(MOST_AT_ONCE) as u32
}
