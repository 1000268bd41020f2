//! A script on a mirror: each block stands on two legs of a volume, at virtual block u on leg 0 and at L + u on leg 1,
//! where the volume has 2 L blocks. A write goes to both legs; a read is taken from the first leg that has the last
//! accepted write of the block and delivers it; a repair makes both legs equal again.
#![tactic(auto)]

mod laws;
mod legs;
mod legs_laws;
mod marks;
mod mirror;
mod ops;
mod own;
mod pages;
mod piece;
mod reading;
mod repair;
mod replies;
mod runs_laws;
mod stretches;
mod writing;

pub use laws::{
    a_formed_mirror_has_one_good_leg, a_read_that_is_done_has_the_last_write,
    no_fault_is_enough_under_any_protect_field, one_good_leg_is_enough,
    premises_of_a_mirror_can_be_met,
};
pub use legs_laws::{
    a_mirror_has_what_its_legs_ask, a_read_on_a_leg_goes_its_ways,
    a_read_with_tuples_on_a_leg_goes_its_ways, a_stack_takes_a_read_with_tuples_on_a_leg,
    a_stack_takes_a_request_on_a_leg, a_write_on_a_leg_goes_its_ways,
};
pub use mirror::{Mirror, Repair};
pub use own::{page_segs, pages_for, read_pi_script, read_script, write_script};
pub use piece::Piece;
pub use runs_laws::{
    a_repair_of_a_mirror_is_that_of_its_walk, an_op_of_a_mirror_goes_on_in_its_walk,
};
