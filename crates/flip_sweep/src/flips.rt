//! Where a byte may be altered.

ghost use Rattle.std.specs.Prelude.{◌≡◌, ◌≤◌, ◌++◌, ℕ, List, [], ◌∷◌, Some, IfOk, length};
ghost use Rattle.fault_schedule.specs.declared.fault.FaultKind.TheVariants.{Flip};
ghost use Rattle.script_text.specs.Bindings.{request_of};
ghost use Rattle.script_text.specs.Crossings.{crossing_of, is_read, is_read_op};
ghost use Rattle.flip_sweep.specs.Flips.{count_in, flip_at, sites_from, sites_on, with_flip};

use crate::copying::with_faults;
use arrayvec::ArrayVec;
use fault_schedule::{Crossing, FaultKind, FaultLine, FaultList, ShortBytes};
use script_lines::Spot;
use script_text::{LineList, Script};
use stack_ops::Op;
use std::alloc::{AllocError, Global};

/// A crossing of a block of a read or write.
#[derive(Clone, Copy, Debug, PartialEq, Eq)]
pub struct Site {
    /// The number of the op, from 1.
    pub op: u32,
    /// The block's place in the request, from 0.
    pub k: u32,
    /// Where it crosses.
    pub spot: Spot,
}

/// How many blocks a request has; none where the op is no read or write.
fn count_of(op: &Op) -> u32
    ensures { result ≡ count_in (request_of op.now) }
{
    match op {
        Op::Write { n, .. } | Op::WritePi { n, .. } | Op::Fetch { n, .. } | Op::FetchPi { n, .. } =>
            *n,
        _ => 0,
    }
}

/// Adds the crossings of a block.
fn add_block(sites: &mut Vec<Site>, op: u32, k: u32) -> Result<(), AllocError>
    ensures { IfOk result (λ _. sites.new.items ≡ sites.old.items ++ sites_on op k 1) }
{
    sites.push(Site {
        op,
        k,
        spot: Spot::Host,
    })?;
    sites.push(Site {
        op,
        k,
        spot: Spot::Wire,
    })?;
    sites.push(Site {
        op,
        k,
        spot: Spot::Medium,
    })?;
    Ok(())
}

/// Adds the crossings of the first blocks of the op of this number.
fn add_blocks(sites: &mut Vec<Site>, op: u32, count: u32) -> Result<(), AllocError>
    ensures { IfOk result (λ _. sites.new.items ≡ sites.old.items ++ sites_on op 0 count) }
{
    for k in 0..count {
        add_block(sites, op, k)?;
    }
    Ok(())
}

/// All crossings of all blocks of the reads and writes, in order.
pub(crate) fn sites_of(alloc: Global, ops: &[Op]) -> Result<Vec<Site>, AllocError>
    requires { length ops.now ≤ 1024 }
    ensures { IfOk result (λ sites. sites.items ≡ sites_from 1 ops.now) }
{
    let mut sites = Vec::new(alloc);
    let mut rest = ops;
    let mut number = 1u32;
    while let Some((op, behind)) = rest.split_first() {
        add_blocks(&mut sites, number, count_of(op))?;
        rest = behind;
        number += 1;
    }
    Ok(sites)
}

fn is_read_op(op: &Op) -> bool
    ensures { result ≡ is_read_op (Some op.now) }
{
    match op {
        Op::Fetch { .. } | Op::FetchPi { .. } => true,
        _ => false,
    }
}

/// Whether the op of this number, from 1, is a read.
fn is_read(ops: &[Op], number: u32) -> bool
    ensures { result ≡ is_read ops.now number }
{
    match ops.get(number.saturating_sub(1) as usize) {
        Some(op) => is_read_op(op),
        None => false,
    }
}

/// The crossing of a place, for a read or for a write.
fn crossing_of(spot: Spot, is_read: bool) -> Crossing
    ensures { (off : ℕ) (bytes : List ℕ) → result ≡ crossing_of spot (Flip off bytes) is_read }
{
    match spot {
        Spot::Host if is_read => Crossing::AdapterToHost,
        Spot::Host => Crossing::HostToAdapter,
        Spot::Wire if is_read => Crossing::TargetToAdapter,
        Spot::Wire => Crossing::AdapterToTarget,
        Spot::Medium if is_read => Crossing::MediumToTarget,
        Spot::Medium => Crossing::TargetToMedium,
    }
}

/// The fault that flips these bits of byte `off` of the frame that crosses there.
fn flip_at(ops: &[Op], site: Site, off: u32, byte: u8) -> FaultLine
    ensures { result ≡ flip_at ops.now site off byte }
{
    let mut bytes = ArrayVec::new();
    match bytes.try_push(byte) {
        Ok(()) => {}
        Err(_) => unreachable!(),
    }
    FaultLine {
        op: site.op,
        k: site.k,
        at: crossing_of(site.spot, is_read(ops, site.op)),
        kind: FaultKind::Flip {
            off,
            bytes: ShortBytes::from_array(bytes),
        },
    }
}

/// The list of one fault.
fn alone(alloc: Global, line: FaultLine) -> Result<FaultList, AllocError>
    ensures { IfOk result (λ list. list ≡ line ∷ []) }
{
    let mut faults = Vec::with_capacity(alloc, 1)?;
    faults.push(line)?;
    Ok(FaultList::from_vec(faults))
}

/// The numbers of these lines, and before them that of a fault whose line has none.
fn lines_behind(alloc: Global, lines: &[u32]) -> Result<LineList, AllocError>
    ensures { IfOk result (λ list. list ≡ 0 ∷ lines.now) }
{
    let mut held = Vec::new(alloc);
    held.push(0)?;
    held.extend_from_slice(lines)?;
    Ok(LineList::from_vec(held))
}

/// The script with this flip as its one fault.
pub(crate) fn with_flip(
    alloc: Global,
    script: &Script,
    site: Site,
    off: u32,
    byte: u8,
) -> Result<Script, AllocError>
    ensures { IfOk result (λ flipped. flipped ≡ with_flip script.now site off byte) }
{
    let fault = flip_at(script.ops.as_slice(), site, off, byte);
    let lines = lines_behind(alloc, script.lines.as_slice())?;
    with_faults(alloc, script, alone(alloc, fault)?, lines)
}
