//! That a stack between two steps follows the walk of its script: what it is, one law for each step, and what a finished
//! stack comes to. It speaks of no code: a stack's contract cites it.
#![tactic(auto)]

mod begin;
mod end;
mod falls_end;
mod falls_send;
mod falls_steps;
mod falls_switch;
mod law;
mod laws;
mod plans;
mod send;
mod steps;

pub use begin::a_stack_begins;
pub use end::{
    a_bound_run_is_bound_over_its_record, a_finished_stack_is_backed, a_finished_stack_is_the_walk,
    a_finished_told_stack_is_carried,
};
pub use falls_end::{
    a_finished_stack_is_the_falling_walk, a_stack_reads_the_last_write_or_fails_at_the_medium,
    a_stack_writes_or_fails_at_the_medium, a_target_takes_any,
};
pub use falls_send::a_falling_command_is_sent;
pub use falls_steps::{
    a_block_is_settled_where_calls_fail, a_falling_stack_begins,
    a_write_is_held_back_where_calls_fail, an_op_is_done_whole_where_calls_fail,
    an_overwrite_flips_its_block_where_its_call_fails, some_blocks_move_on_where_calls_fail,
};
pub use falls_switch::{
    a_stack_that_lists_no_medium_follows_the_walk, what_was_not_carried_may_come_to_another_device,
};
pub use law::a_carried_group_goes_on_record;
pub use laws::what_was_found_stands_in_its_cell;
pub use plans::a_plan_has_the_conflicts_of_its_ops;
pub use send::{
    a_command_is_sent, a_group_is_sent, a_told_command_is_sent, a_write_is_held_back,
    frames_on_record_fit, more_may_stand_on_record, what_was_not_carried_is_not_on_record,
};
pub use steps::{
    a_block_is_admitted, a_block_is_carried, a_block_is_cut, a_block_is_settled,
    an_op_is_done_whole, some_blocks_move_on, what_may_move_may_over_the_record,
};
