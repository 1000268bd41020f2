//! Pages of bytes, the segments that name bytes of them, and borrowed parts: data stays in its page, and what
//! speaks of it holds names.
#![tactic(auto)]

mod laws;
mod parts;
mod pool;
mod segs;
mod transfer;
mod walk;

pub use laws::{
    a_part_is_written, a_pool_is_cells, a_range_is_of_its_list, a_walk_goes_on, cells_in_turn,
};
pub use parts::Parts;
pub use pool::PagePool;
pub use segs::{Seg, SgList};
pub use walk::Walk;

/// The bytes of a page.
pub const PAGE: u32 = 4096;
