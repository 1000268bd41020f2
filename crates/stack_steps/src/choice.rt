//! What a stack may do next.

ghost use Rattle.std.specs.Prelude.{◌≡◌, ◌<◌, ◌≤◌, ◌+◌, ◌^◌, ℕ, min, length, if◌then◌else◌, slice_index_or};
ghost use Rattle.std.specs.List.{All};
ghost use Rattle.merge_queue.specs.Groups.{pairs};
ghost use Rattle.range_gate.specs.Gates.{phase_at};
ghost use Rattle.stack_laws.specs.View as Admits;
ghost use Rattle.stack_steps.specs.Choices.{ChoiceFound, PlaceFound, can_at, places, no_choice, joins_at, sends_at, choices, IsBelow};

use crate::Requests;
use crate::flight::InFlight;
use crate::state::OpState;
use merge_queue::{DeviceQueue, Limits};
use range_gate::Gate;

/// What is done to one op.
#[derive(Clone, Copy, Debug, PartialEq, Eq)]
pub enum OpStep {
    Ending,
    Admission,
    Cutting,
}

/// A step, ops by their place among those that have not ended, commands by their place among those in flight.
#[derive(Clone, Copy, Debug, PartialEq, Eq)]
pub enum Choice {
    End(usize),
    Complete(u32),
    Admit(usize),
    Cut(usize),
    Join(u32, u32, u32),
    Send(u32, u32),
}

/// Whether an op was admitted and has not ended.
fn is_admitted(gate: &Gate, op: u32) -> bool
    requires number { op + 1 < 2 ^ 32 }
    requires there { op < length gate.now.phases }
    ensures { result ≡ Admits.is_admitted (phase_at gate.now.phases op) }
{
    !gate.waiting(op + 1) && !gate.ended(op + 1)
}

fn one_if(b: bool) -> u32
    ensures one { result ≡ (if b then 1 else 0) }
    ensures few { result ≤ 1 }
{
    if b { 1 } else { 0 }
}

/// Whether the op at this place of the list has this step.
fn can_do<P: Requests>(
    plan: &P,
    gate: &Gate,
    ops: &[OpState],
    live: &[u32],
    step: OpStep,
    at: usize,
) -> bool
    requires few { length (P.plan plan.now).requests + 1 < 2 ^ 32 }
    requires phases { length gate.now.phases ≡ length (P.plan plan.now).requests }
    requires same { length ops.now ≡ length (P.plan plan.now).requests }
    requires there { at < length live.now }
    requires ops { All (IsBelow (length (P.plan plan.now).requests)) live.now }
    ensures { result ≡ can_at (P.plan plan.now) gate.now ops.now live.now step at }
{
    let op = live[at];
    let state = ops[op as usize];
    match step {
        // (what rules most ops out is looked at first)
        OpStep::Ending => state.left == 0 && is_admitted(gate, op),
        OpStep::Admission => gate.may_admit(op + 1),
        OpStep::Cutting => state.cut < plan.io(op).count && is_admitted(gate, op),
    }
}

/// How many of the first ops have this step.
pub fn count_ops<P: Requests>(
    plan: &P,
    gate: &Gate,
    ops: &[OpState],
    live: &[u32],
    step: OpStep,
) -> u32
    requires few { length (P.plan plan.now).requests + 1 < 2 ^ 32 }
    requires phases { length gate.now.phases ≡ length (P.plan plan.now).requests }
    requires same { length ops.now ≡ length (P.plan plan.now).requests }
    requires ops { All (IsBelow (length (P.plan plan.now).requests)) live.now }
    ensures count { result ≡ length (places (P.plan plan.now) gate.now ops.now live.now step) }
    ensures few { result ≤ 32 }
{
    let n = live.len().min(32);
    let mut count = 0u32;
    for at in 0..n {
        count += one_if(can_do(plan, gate, ops, live, step, at));
    }
    count
}

/// The place of the op of this number among those that have this step, or how far the number is past the last.
fn find_op<P: Requests>(
    plan: &P,
    gate: &Gate,
    ops: &[OpState],
    live: &[u32],
    step: OpStep,
    number: u64,
) -> Result<usize, u64>
    requires few { length (P.plan plan.now).requests + 1 < 2 ^ 32 }
    requires phases { length gate.now.phases ≡ length (P.plan plan.now).requests }
    requires same { length ops.now ≡ length (P.plan plan.now).requests }
    requires ops { All (IsBelow (length (P.plan plan.now).requests)) live.now }
    ensures { PlaceFound (places (P.plan plan.now) gate.now ops.now live.now step) number result }
{
    let n = live.len().min(32);
    let mut left = number;
    for at in 0..n {
        if can_do(plan, gate, ops, live, step, at) {
            if left == 0 {
                return Ok(at);
            }
            left -= 1;
        }
    }
    Err(left)
}

/// How many pairs of groups may be joined.
pub fn count_joins(queues: &[DeviceQueue], lim: &Limits) -> u64
    requires few { length (joins_at lim.now 0 queues.now) < 2 ^ 63 }
    ensures { result ≡ length (joins_at lim.now 0 queues.now) }
{
    let mut count = 0u64;
    for d in 0..queues.len() {
        count += queues[d].joins(lim);
    }
    count
}

/// The joining of this number, from 0, or how far the number is past the last.
pub fn find_join(queues: &[DeviceQueue], lim: &Limits, number: u64) -> Result<Choice, u64>
    requires devices { length queues.now < 2 ^ 32 }
    ensures { ChoiceFound (joins_at lim.now 0 queues.now) number result }
{
    let mut left = number;
    for d in 0..queues.len() {
        match queues[d].find_join(left, lim) {
            Ok((i, j)) => return Ok(Choice::Join(d as u32, i, j)),
            Err(behind) => left = behind,
        }
    }
    Err(left)
}

/// How many groups may be sent.
pub fn count_sends(queues: &[DeviceQueue]) -> u64
    requires few { length (sends_at 0 queues.now) < 2 ^ 63 }
    ensures { result ≡ length (sends_at 0 queues.now) }
{
    let mut count = 0u64;
    for d in 0..queues.len() {
        count += queues[d].groups() as u64;
    }
    count
}

/// The sending of this number, from 0.
pub fn pick_send(queues: &[DeviceQueue], number: u64) -> Choice
    requires devices { length queues.now < 2 ^ 32 }
    requires within { number < length (sends_at 0 queues.now) }
    ensures { result ≡ slice_index_or (sends_at 0 queues.now) number no_choice }
{
    let mut left = number;
    for d in 0..queues.len() {
        let count = queues[d].groups() as u64;
        if left < count {
            return Choice::Send(d as u32, left as u32);
        }
        left -= count;
    }
    unreachable!()
}

/// How many choices there are.
pub fn count_choices<P: Requests>(
    plan: &P,
    gate: &Gate,
    ops: &[OpState],
    live: &[u32],
    queues: &[DeviceQueue],
    flight: &InFlight,
) -> u64
    requires few { length (P.plan plan.now).requests + 1 < 2 ^ 32 }
    requires phases { length gate.now.phases ≡ length (P.plan plan.now).requests }
    requires same { length ops.now ≡ length (P.plan plan.now).requests }
    requires ops { All (IsBelow (length (P.plan plan.now).requests)) live.now }
    requires joins { length (joins_at (P.plan plan.now).limits 0 queues.now) < 2 ^ 63 }
    requires sends { length (sends_at 0 queues.now) < 2 ^ 62 }
    ensures { result ≡ length (choices (P.plan plan.now) gate.now ops.now live.now queues.now flight.now.commands) }
{
    let lim = plan.limits();
    let ends = count_ops(plan, gate, ops, live, OpStep::Ending) as u64;
    let completions = flight.len() as u64;
    let admissions = count_ops(plan, gate, ops, live, OpStep::Admission) as u64;
    let cuts = count_ops(plan, gate, ops, live, OpStep::Cutting) as u64;
    let joins = count_joins(queues, &lim);
    let sends = count_sends(queues);
    ends + completions + admissions + cuts + joins + sends
}

/// The choice of this number.
pub fn nth_choice<P: Requests>(
    plan: &P,
    gate: &Gate,
    ops: &[OpState],
    live: &[u32],
    queues: &[DeviceQueue],
    flight: &InFlight,
    number: u64,
) -> Choice
    requires few { length (P.plan plan.now).requests + 1 < 2 ^ 32 }
    requires phases { length gate.now.phases ≡ length (P.plan plan.now).requests }
    requires same { length ops.now ≡ length (P.plan plan.now).requests }
    requires ops { All (IsBelow (length (P.plan plan.now).requests)) live.now }
    requires devices { length queues.now < 2 ^ 32 }
    requires joins { length (joins_at (P.plan plan.now).limits 0 queues.now) < 2 ^ 63 }
    requires within { number < length (choices (P.plan plan.now) gate.now ops.now live.now queues.now flight.now.commands) }
    ensures { result ≡ slice_index_or (choices (P.plan plan.now) gate.now ops.now live.now queues.now flight.now.commands) number no_choice }
{
    let lim = plan.limits();
    let second = match find_op(plan, gate, ops, live, OpStep::Ending, number) {
        Ok(q) => return Choice::End(q),
        Err(behind) => behind,
    };
    let completions = flight.len() as u64;
    if second < completions {
        return Choice::Complete(second as u32);
    }
    let third = second - completions;
    let fourth = match find_op(plan, gate, ops, live, OpStep::Admission, third) {
        Ok(q) => return Choice::Admit(q),
        Err(behind) => behind,
    };
    let fifth = match find_op(plan, gate, ops, live, OpStep::Cutting, fourth) {
        Ok(q) => return Choice::Cut(q),
        Err(behind) => behind,
    };
    match find_join(queues, &lim, fifth) {
        Ok(choice) => choice,
        Err(sixth) => pick_send(queues, sixth),
    }
}
