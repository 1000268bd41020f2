//! A script against a volume.

ghost use Rattle.std.specs.Prelude.{◌≡◌, ◌<◌, ◌≤◌, ◌+◌, [], Some, None, MatchResult, drop, length};
ghost use Rattle.std.specs.List.{list_any};
ghost use Rattle.script_text.specs.Bindings.{binding_fault, block_stays, blocks_stay, expect_fault, faults_fault, is_bad_fail, is_bad_keep, is_bad_on, is_bad_shift, is_misplaced, names_block, op_fault, ops_fault, request_at, shifts};
ghost use Rattle.script_text.specs.Crossings.{is_read};
ghost use Rattle.volume_table.specs.Places.{volume_len};

use crate::against::{Against, can_alter, is_bad_change, is_on, request, request_at};
use crate::draft::is_read;
use crate::kinds::{is_of_medium, is_shift};
use crate::{Script, ScriptFault, ScriptKind};
use fault_schedule::{Crossing, FaultKind, FaultLine};
use pi_tuple::PiType;
use rig_api::stored_size;
use stack_ops::Op;
use volume_table::{DeviceInfo, VolumeTable};

/// Whether a block of the volume lies on its device when it is moved.
fn block_stays(against: Against, v: u64, by: i64) -> bool
    requires { v < volume_len against.table.now.entries }
    ensures { result ≡ block_stays against.entry.table.now against.entry.devices.now by v }
{
    let (dev, lba) = against.table.place(v);
    match against.devices.get(dev as usize) {
        None => false,
        Some(device) => is_on(*device, lba, by),
    }
}

/// Whether each block of the request that lies in the volume lies on its device when it is moved.
fn stays_on(against: Against, v: u64, n: u32, by: i64) -> bool
    ensures { result ≡ blocks_stay against.entry.table.now against.entry.devices.now by v n }
{
    let mut at = v;
    for _i in 0..n {
        if at >= against.table.len() {
            return true;
        }
        if !block_stays(against, at, by) {
            return false;
        }
        at += 1;
    }
    true
}

/// Whether one of these lines shifts the op of this number.
pub fn is_shifted(lines: &[FaultLine], op: u32) -> bool
    ensures { result ≡ list_any (shifts op) lines.now }
{
    lines
        .iter()
        .any(|line| op == line.op && is_shift(&line.kind))
}

/// Whether a shift at this crossing is of fetched blocks, where the op fetches none.
pub fn is_misplaced(reads: bool, at: Crossing) -> bool
    ensures { result ≡ is_misplaced reads at }
{
    at == Crossing::MediumToTarget && !reads
}

/// Whether a shift behind these lines can't be: of another type than 1, of fetched blocks where the
/// op fetches none, twice on one op, or off its device.
fn is_bad_shift(
    against: Against,
    earlier: &[FaultLine],
    line: &FaultLine,
    reads: bool,
    request: (u64, u32),
    by: i64,
) -> bool
    ensures { result ≡ is_bad_shift against.entry.table.now against.entry.devices.now earlier.now line.now reads request by }
{
    let (v, n) = request;
    against.table.ty() != PiType::One
        || is_misplaced(reads, line.at)
        || is_shifted(earlier, line.op)
        || !stays_on(against, v, n, by)
}

/// Whether one of these lines says that the medium loses, tears or fails this block.
pub fn is_named(lines: &[FaultLine], op: u32, k: u32) -> bool
    ensures { result ≡ list_any (names_block op k) lines.now }
{
    lines.iter().any(|line| op == line.op && k == line.k && is_of_medium(&line.kind))
}

/// Whether a line behind these can't lose or tear its block: of an op that isn't a write, of no
/// less than the `stored` bytes of a block, or of a block that an earlier line loses, tears or fails.
pub fn is_bad_keep(stored: usize, earlier: &[FaultLine], line: &FaultLine, bytes: u32) -> bool
    ensures { result ≡ is_bad_keep stored earlier.now line.now bytes }
{
    line.at != Crossing::TargetToMedium
        || bytes as usize >= stored
        || is_named(earlier, line.op, line.k)
}

/// Whether a line behind these can't fail its block, as an earlier line loses, tears or fails it.
pub fn is_bad_fail(earlier: &[FaultLine], line: &FaultLine) -> bool
    ensures { result ≡ is_bad_fail earlier.now line.now }
{
    is_named(earlier, line.op, line.k)
}

/// Whether a fault line behind these can't be.
fn is_bad_fault(against: Against, earlier: &[FaultLine], line: &FaultLine, ops: &[Op]) -> bool
    ensures { result ≡ is_bad_on against.entry.table.now against.entry.devices.now against.entry.size earlier.now line.now (is_read ops.now line.now.op) (request_at ops.now line.now.op) }
{
    let Some((v, n)) = request_at(ops, line.op) else {
        return true;
    };
    if line.k >= n {
        return true;
    }
    match line.kind {
        FaultKind::Flip { .. } => false,
        FaultKind::Shift { by } => {
            let reads = is_read(ops, line.op);
            is_bad_shift(against, earlier, line, reads, (v, n), by)
        }
        FaultKind::Keep { bytes } => {
            let stored = stored_size(against.table.ty(), against.size);
            is_bad_keep(stored, earlier, line, bytes)
        }
        FaultKind::Fail => is_bad_fail(earlier, line),
    }
}

/// The first fault line that can't be.
fn faults_fault(against: Against, script: &Script) -> Option<ScriptFault>
    requires lines { length script.now.faults ≤ length script.now.lines }
    ensures { result ≡ faults_fault against.entry.table.now against.entry.devices.now against.entry.size script.now.ops [] script.now.faults script.now.lines }
{
    let ops = script.ops.as_slice();
    let lines = script.lines.as_slice();
    let faults = script.faults.as_slice();
    for (i, fault) in faults.iter().enumerate() {
        if is_bad_fault(against, &faults[..i], fault, ops) {
            return Some(ScriptFault {
                line: lines[i],
                kind: ScriptKind::BadFault,
            });
        }
    }
    None
}

/// What is wrong with an op against the volume.
fn op_fault(against: Against, op: &Op) -> Option<ScriptKind>
    ensures { result ≡ op_fault against.entry.table.now against.entry.devices.now against.entry.size op.now }
{
    if let Some((v, n)) = request(op) {
        let len = against.table.len();
        if v > len || u64::from(n) > len - v {
            return Some(ScriptKind::BadRange);
        }
    }
    if let Op::Overwrite { dev, lba, change } = op {
        if is_bad_change(against, change) || !can_alter(against, *dev, *lba) {
            return Some(ScriptKind::BadFault);
        }
    }
    None
}

/// The first op that can't be over the volume. The lines of the ops stand behind those of the faults.
fn ops_fault(against: Against, script: &Script) -> Option<ScriptFault>
    requires lines { length script.now.faults + length script.now.ops ≤ length script.now.lines }
    ensures { result ≡ ops_fault against.entry.table.now against.entry.devices.now against.entry.size script.now.ops (drop (length script.now.faults) script.now.lines) }
{
    let lines = script.lines.as_slice();
    let first = script.faults.as_slice().len();
    for (i, op) in script.ops.as_slice().iter().enumerate() {
        if let Some(kind) = op_fault(against, op) {
            return Some(ScriptFault {
                line: lines[first + i],
                kind,
            });
        }
    }
    None
}

fn expect_fault(script: &Script, ty: PiType) -> Option<ScriptFault>
    ensures { result ≡ expect_fault script.now ty }
{
    if script.mode.mask != 0 && ty == PiType::Zero {
        Some(ScriptFault {
            line: script.expect_line,
            kind: ScriptKind::NoIntegrity,
        })
    } else {
        None
    }
}

/// Whether the script may run over this volume of these devices, or its first fault there: an
/// expected application tag on devices without tuples; then each fault line; then each op.
pub fn bind_script(
    script: &Script,
    table: &VolumeTable,
    devices: &[DeviceInfo],
) -> Result<(), ScriptFault>
    requires { length script.now.faults + length script.now.ops ≤ length script.now.lines }
    ensures { MatchResult result (λ u. binding_fault script.now table.now devices.now ≡ None) (λ f. binding_fault script.now table.now devices.now ≡ Some f) }
{
    let against = Against {
        table,
        devices,
        size: script.block,
    };
    if let Some(fault) = expect_fault(script, table.ty()) {
        return Err(fault);
    }
    if let Some(fault) = faults_fault(against, script) {
        return Err(fault);
    }
    match ops_fault(against, script) {
        Some(fault) => Err(fault),
        None => Ok(()),
    }
}
