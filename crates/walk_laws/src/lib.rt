//! What a run of a script must come to: the walk that does the ops one after another, the plain map of virtual blocks,
//! the image under that map, what is past beside the walk, and which layer checks first after a fault.
#![tactic(auto)]

mod script_laws;

pub use script_laws::{
    a_calm_walk_is_a_plain_map, any_calm_order_is_a_plain_map, any_order_is_the_walk,
};
