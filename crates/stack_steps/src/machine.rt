//! The machine.

use crate::flight::InFlight;
use crate::live::Live;
use crate::state::OpState;
use bio_core::Bio;
use merge_queue::DeviceQueue;
use range_gate::Gate;

/// What is kept of the ops of a run between two steps: the gate that lets them start, how far each is cut and settled,
/// which have not ended, the queue of each device, and the commands in flight.
#[derive(Drop)]
pub struct Machine {
    pub(crate) gate: Gate,
    pub(crate) ops: Vec<OpState>,
    // the places of the ops that have not ended, in order
    pub(crate) live: Live,
    pub(crate) queues: Vec<DeviceQueue>,
    pub(crate) flight: InFlight,
    // room for what goes back of a command
    pub(crate) rest: Vec<Bio>,
    pub(crate) steps: u64,
}
