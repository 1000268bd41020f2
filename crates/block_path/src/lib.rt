//! The ways of one block between the pages of a host and the medium: out through adapter and target, and in again,
//! as definitions that the layers above share, with the adapter's part of it in code.
#![tactic(auto)]

mod adapter;
mod laws;
mod mode;
mod operation;
mod owner;
mod route;
mod senses;

pub use adapter::host_type;
pub use laws::{
    a_read_in_two_moves, a_walk_goes_on, a_write_in_three_moves, acts_without_conflict_commute,
    frames_have_their_sizes, one_exchange_is_its_blocks_in_turn, tuples_are_written_in_turn,
    what_is_not_done_may_become_another_act, what_was_done_is_a_walk, what_was_done_is_final,
};
pub use mode::Mode;
pub use operation::{Operation, operation_for};
pub use owner::owner_says;
pub use route::Route;
pub use senses::why_by;
