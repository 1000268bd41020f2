//! What a script does to an image whose bytes are known, and what a run over such an image tells: definitions
//! and lemmas, of which the headline and the laws of dixlab speak. Nothing here runs.
#![tactic(auto)]

mod images;

pub use images::an_image_is_its_header_and_its_blocks;
