//! A rig over an image in a store: the units behind the image's header, each a device, and the log
//! of its exchanges.
#![tactic(auto)]

mod calls;
mod formatting;
mod head;
mod held;
mod image;
mod image_head;
mod kept;
mod layout_place;
mod log;
mod looking;
mod migrating;
mod note;
mod overwriting;
mod place;

pub use image::ImageRig;
pub use image_head::ImageHead;
pub use layout_place::{block_place, has_address, place_of};
pub use log::Log;
pub use looking::look;
