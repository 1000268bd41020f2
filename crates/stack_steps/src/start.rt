//! A stack before the first step.

ghost use Rattle.std.specs.Prelude.{◌≡◌, ◌<◌, ◌≤◌, ◌^◌, ◌+◌, IfOk, ℕ, List, [], length, map, replicate};
ghost use Rattle.std.specs.List.{All};
ghost use Rattle.std.specs.Vec.{vec_capacity};
ghost use Rattle.stack_laws.specs.View.{waiting, start};
ghost use Rattle.stack_laws.specs.Runs.{blocks_of_requests};
ghost use Rattle.merge_queue.specs.Groups.{numbers};
ghost use Rattle.stack_steps.specs.State.{state_of};
ghost use Rattle.stack_steps.specs.Shows.{groups_of, HasRoom, IsGateOf};
ghost use Rattle.range_gate.specs.declared.phase.Phase.TheVariants.{Waiting};
ghost use Rattle.stack_steps.specs.Does.{Holds};

use crate::flight::InFlight;
use crate::live::Live;
use crate::state::OpState;
use crate::{Machine, Requests};
use merge_queue::{DeviceQueue, Limits};
use range_gate::Gate;
use std::alloc::{AllocError, Global};

fn new_ops<P: Requests>(alloc: Global, plan: &P) -> Result<Vec<OpState>, AllocError>
    ensures { IfOk result (λ ops. ops.items ≡ map state_of (map waiting (P.plan plan.now).requests)) }
{
    let n = plan.ops();
    let mut ops = Vec::with_capacity(alloc, n as usize)?;
    for i in 0..n {
        ops.push_reserved(OpState {
            cut: 0,
            left: plan.io(i).count,
        });
    }
    Ok(ops)
}

fn new_live(alloc: Global, n: u32) -> Result<Vec<u32>, AllocError>
    ensures { IfOk result (λ live. live.items ≡ numbers 0 n) }
{
    let mut live = Vec::with_capacity(alloc, n as usize)?;
    for i in 0..n {
        live.push_reserved(i);
    }
    Ok(live)
}

/// How many blocks all ops have.
fn count_blocks<P: Requests>(plan: &P) -> u32
    ensures { result ≡ blocks_of_requests (P.plan plan.now).requests }
{
    let mut count = 0u32;
    for i in 0..plan.ops() {
        count += plan.io(i).count;
    }
    count
}

/// An empty queue, which keeps the number of joinings under these limits.
fn new_queue(alloc: Global, room: u32, lim: &Limits) -> Result<DeviceQueue, AllocError>
    ensures { IfOk result (λ queue. (queue.groups ≡ []) × (queue.room ≡ room)) }
{
    let mut queue = DeviceQueue::new(alloc, room)?;
    queue.keep_count(lim);
    Ok(queue)
}

fn new_queues(
    alloc: Global,
    n: u32,
    room: u32,
    lim: &Limits,
) -> Result<Vec<DeviceQueue>, AllocError>
    ensures groups { IfOk result (λ queues. map groups_of queues.items ≡ replicate n []) }
    ensures room { IfOk result (λ queues. All (HasRoom room) queues.items) }
{
    let mut queues = Vec::with_capacity(alloc, n as usize)?;
    for i in 0..n {
        queues.push_reserved(new_queue(alloc, room, lim)?);
    }
    Ok(queues)
}

impl Machine {
    /// A machine for the requests, over a gate at which all ops wait. Takes all the memory of the steps.
    pub fn new<P: Requests>(alloc: Global, plan: &P, gate: Gate) -> Result<Machine, AllocError>
        requires ops { gate.phases ≡ replicate (length (P.plan plan.now).requests) Waiting }
        requires conflicts { IsGateOf (P.plan plan.now) gate }
        ensures { IfOk result (λ machine. Holds (P.plan plan.now) machine (start (P.plan plan.now))) }
    {
        let room = count_blocks(plan);
        Ok(Machine {
            gate,
            ops: new_ops(alloc, plan)?,
            live: Live::of(new_live(alloc, plan.ops())?),
            queues: new_queues(alloc, plan.devices(), room, &plan.limits())?,
            flight: InFlight::new(alloc, room)?,
            rest: Vec::with_capacity(alloc, room as usize)?,
            steps: 0,
        })
    }
}
