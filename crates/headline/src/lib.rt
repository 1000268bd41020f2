//! The headline: what a script does to an image, from bytes to bytes. One call of the program over an image and a
//! script in memory, whose contract says it of these bytes alone.
#![tactic(auto)]

mod bytes;
mod formatted;
mod report_sink;
mod schedule;
mod way;

pub use bytes::{Ran, run_on_bytes};
pub use formatted::a_formatted_image_tells_its_units;
pub use schedule::no_schedule_has_a_part;
pub use way::Way;
