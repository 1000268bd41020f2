//! What a call that runs a script on a mirror comes to: a script is read from a source, bound to a mirror over the
//! devices of an image, run op by op on both legs, and the mirror is repaired; or why not. And the text of it.
#![tactic(auto)]

mod binding;
mod mirrored;
mod serving;
mod text;

pub use mirrored::{Mirrored, mirror_source, run_mirror};
pub use text::print_mirrored;
