//! A gate that lets ops run.

ghost use Rattle.std.specs.Prelude.{◌≡◌, ◌<◌, ◌≤◌, IfOk, length, vec_len};

use page_pool::Seg;
use range_gate::{Footprint, Gate, Touch, TouchList};
use std::alloc::{AllocError, Global};

// So many ops are under way at a time.
const WINDOW: u32 = 32;

/// What op `k` touches: so many segments of 64 bytes, one on each page, every second one written. 64 neighbouring
/// ops share no byte.
fn print_of(alloc: Global, k: u32, segs: u32) -> Result<Footprint, AllocError> {
    let mut touches = Vec::with_capacity(alloc, segs as usize)?;
    for page in 0..segs {
        let seg = Seg {
            page,
            off: k % 64 * 64,
            len: 64,
        };
        touches.push(Touch {
            seg,
            writes: page % 2 == 0,
        })?;
    }
    Ok(Footprint {
        alone: false,
        blocks: None,
        bytes: TouchList::from_vec(touches),
    })
}

fn prints_of(alloc: Global, ops: u32, segs: u32) -> Result<Vec<Footprint>, AllocError>
    ensures { IfOk result (λ v. vec_len v ≡ ops) }
{
    let mut prints = Vec::with_capacity(alloc, ops as usize)?;
    for k in 0..ops {
        prints.push(print_of(alloc, k, segs)?)?;
    }
    Ok(prints)
}

/// Admits the op if it may be admitted.
fn start(gate: &mut Gate, op: u32)
    requires some { 1 ≤ op }
    requires within { op ≤ length gate.old.phases }
    ensures { length gate.new.phases ≡ length gate.old.phases }
{
    if gate.may_admit(op) {
        gate.admit(op);
    }
}

/// Ends the op if it was admitted, and answers how many ops ended.
fn finish(gate: &mut Gate, op: u32) -> u32
    requires some { 1 ≤ op }
    requires within { op ≤ length gate.old.phases }
    ensures count { result ≤ 1 }
    ensures ops { length gate.new.phases ≡ length gate.old.phases }
{
    if gate.waiting(op) || gate.ended(op) {
        return 0;
    }
    gate.end(op);
    1
}

/// Lets all ops run, 32 at a time, and answers how many ended.
fn run_all(gate: &mut Gate, ops: u32) -> u32
    requires { length gate.old.phases ≡ ops }
{
    let mut count = 0u32;
    for i in 0..ops {
        if i >= WINDOW {
            count = count.wrapping_add(finish(gate, i - WINDOW + 1));
        }
        start(gate, i + 1);
    }
    for i in 0..ops {
        count = count.wrapping_add(finish(gate, i + 1));
    }
    count
}

/// Makes a gate for so many ops that touch so many segments each and don't conflict, and, where asked, lets them run.
/// Answers how many ended.
pub(crate) fn gate_run(alloc: Global, ops: u32, segs: u32, runs: bool) -> Result<u32, AllocError>
    requires { ops < 4294967295 }
{
    let prints = prints_of(alloc, ops, segs)?;
    let mut gate = Gate::new(alloc, prints)?;
    if !runs {
        return Ok(0);
    }
    Ok(run_all(&mut gate, ops))
}
