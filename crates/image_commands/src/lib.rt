//! What the program does with whole images: opens, formats, migrates and scrubs them, over any rig.
#![tactic(auto)]

mod formatting;
mod migrating;
mod opening;
mod scrubbing;

pub use formatting::format_image;
pub use migrating::migrate_image;
pub use opening::open_image;
pub use scrubbing::scrub_image;
