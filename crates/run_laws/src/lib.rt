//! What holds of a script's run under faults: the laws over the definitions of `whole_run`.
#![tactic(auto)]

mod detection;
mod gate;
mod order;
mod record;
mod store_faults;
mod suits;

pub use detection::{
    a_read_is_the_last_stored_write_or_names_who_ends_it,
    a_read_is_the_last_write_or_names_the_first_layer,
};
pub use gate::{
    blocks_of_a_request_are_stored_apart, blocks_of_a_request_have_no_moves_that_conflict,
    ops_without_conflict_have_no_moves_with_one,
};
pub use order::{moves_in_any_order_are_the_falling_walk, moves_in_any_order_are_the_walk};
pub use record::{
    a_delivered_block_stands_after_the_accepted_writes, a_log_of_the_walk_is_carried,
    a_walk_is_the_walk_over_its_record, a_walk_over_its_record_is_backed,
    the_walk_counts_accepted_writes,
};
pub use store_faults::{
    a_failing_block_conflicts_as_before, a_read_is_the_last_write_or_fails_at_the_medium,
    a_store_fault_concerns_its_block_alone, a_write_fails_at_the_medium_alone,
};
pub use suits::{a_record_suits, a_target_keeps_sizes};
