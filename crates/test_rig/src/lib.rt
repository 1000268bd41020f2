//! A rig for tests of what stands above a rig: it opens, formats and migrates images as another rig
//! does, tells nothing of what they hold, and answers each command as the test wrote it down.
#![tactic(auto)]

mod answers;
mod calls;
mod image;
mod rig;
mod scripted;

pub use answers::Answer;
pub use image::{change, formatted, image_in, image_of_words};
pub use rig::AnswerRig;
pub use scripted::ScriptedRig;
