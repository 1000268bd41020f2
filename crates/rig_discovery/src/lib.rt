//! Which devices a rig has: what a host learns of them by READ CAPACITY(16), one for each, also
//! where it opens their image first.
#![tactic(auto)]

mod answer;
mod discovery;
mod opening;

pub use discovery::{BadCapacity, discover};
pub use opening::{Untold, told_devices};
