//! The rig.

use crate::answers::Answer;
use fault_schedule::FaultList;
use image_rig::Log;
use rig_api::Rig;

/// A rig that opens images as the rig inside it does, tells nothing of what they hold, and answers
/// each command by the next of its answers; behind the last one it answers that nothing was done,
/// without a sense. Its count of faults rises with each answer of a medium that failed.
#[derive(Drop)]
pub struct ScriptedRig<R: Rig> {
    pub(crate) inner: R,
    pub(crate) log: Log,
    pub(crate) answers: Vec<Answer>,
    /// The answers that were given.
    pub(crate) given: usize,
    pub(crate) armed: FaultList,
    pub(crate) faults: u64,
}
