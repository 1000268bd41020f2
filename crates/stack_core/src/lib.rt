//! The stack of requests in flight: cut, joined, sent, partly done and sent again, in whatever order the words choose.
#![tactic(auto)]

mod kept;
mod laws;
mod requests;
mod settle;
mod setup;
mod sheet;
mod stack;
mod start;

pub use laws::{
    a_finished_stack_has_done_the_falling_walk, a_finished_stack_has_done_the_walk,
    a_finished_stack_has_sent, a_finished_stack_is_backed,
    a_finished_stack_names_the_medium_seldom,
    a_finished_stack_that_names_no_medium_has_followed_the_walk, a_read_is_settled_by_a_move,
    a_write_goes_on_by_moves,
};
pub use setup::Setup;
pub use stack::Stack;
