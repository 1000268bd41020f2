//! A striped extent of a volume: chunks of blocks that go to several devices in turn.
#![tactic(auto)]

mod legs;
mod stripe;

pub use legs::{Leg, LegList};
pub use stripe::Stripe;
