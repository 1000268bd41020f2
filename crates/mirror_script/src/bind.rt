//! A script against a mirror.

ghost use Rattle.std.specs.Prelude.{◌≡◌, ◌≤◌, ◌+◌, [], None, Some, MatchResult, drop, length};
ghost use Rattle.mirror_script.specs.MirrorFaults.{faults_fault, is_bad_kind, is_bad_line, is_past, length_fault, mirror_fault, mode_fault, op_fault, ops_fault, range_fault};
ghost use Rattle.volume_table.specs.Places.{volume_len};

use block_path::Mode;
use fault_schedule::{FaultKind, FaultLine};
use pi_tuple::PiType;
use rig_api::stored_size;
use script_text::{
    Against, Script, ScriptFault, ScriptKind, can_alter, is_bad_change, is_bad_fail, is_bad_keep,
    request_at,
};
use stack_ops::Op;
use volume_table::{DeviceInfo, VolumeTable};

fn mode_fault(mode: Mode, ty: PiType) -> Option<ScriptFault>
    ensures { result ≡ mode_fault mode ty }
{
    if mode.dix && mode.dif && (ty == PiType::One || ty == PiType::Two) {
        None
    } else {
        Some(ScriptFault {
            line: 0,
            kind: ScriptKind::NoIntegrity,
        })
    }
}

fn length_fault(len: u64) -> Option<ScriptFault>
    ensures { result ≡ length_fault len }
{
    if len % 2 == 0 {
        None
    } else {
        Some(ScriptFault {
            line: 0,
            kind: ScriptKind::BadRange,
        })
    }
}

/// Whether the request hasn't the block on either leg.
fn is_past(k: u32, request: Option<(u64, u32)>) -> bool
    ensures { result ≡ is_past k request }
{
    match request {
        None => true,
        Some((_, n)) => u64::from(k) >= 2 * u64::from(n),
    }
}

/// Whether a line behind these can't be of its kind, where so many bytes are stored of a block.
fn is_bad_kind(stored: usize, earlier: &[FaultLine], line: &FaultLine) -> bool
    ensures { result ≡ is_bad_kind stored earlier.now line.now line.now.kind }
{
    match line.kind {
        FaultKind::Flip { .. } => false,
        FaultKind::Shift { .. } => true,
        FaultKind::Keep { bytes } => is_bad_keep(stored, earlier, line, bytes),
        FaultKind::Fail => is_bad_fail(earlier, line),
    }
}

/// Whether a fault line behind these can't be.
fn is_bad_line(
    protect: u8,
    stored: usize,
    ops: &[Op],
    earlier: &[FaultLine],
    line: &FaultLine,
) -> bool
    ensures { result ≡ is_bad_line protect stored ops.now earlier.now line.now }
{
    protect != 1 || is_past(line.k, request_at(ops, line.op)) || is_bad_kind(stored, earlier, line)
}

/// The first fault line that can't be, where so many bytes are stored of a block.
fn faults_fault(script: &Script, stored: usize) -> Option<ScriptFault>
    requires lines { length script.now.faults ≤ length script.now.lines }
    ensures { result ≡ faults_fault script.now.mode.protect stored script.now.ops [] script.now.faults script.now.lines }
{
    let ops = script.ops.as_slice();
    let lines = script.lines.as_slice();
    let faults = script.faults.as_slice();
    for (i, fault) in faults.iter().enumerate() {
        if is_bad_line(script.mode.protect, stored, ops, &faults[..i], fault) {
            return Some(ScriptFault {
                line: lines[i],
                kind: ScriptKind::BadFault,
            });
        }
    }
    None
}

fn range_fault(half: u64, v: u64, n: u32) -> Option<ScriptKind>
    ensures { result ≡ range_fault half v n }
{
    if n > 1024 || v > half || u64::from(n) > half - v {
        Some(ScriptKind::BadRange)
    } else {
        None
    }
}

/// What is wrong with an op on the mirror.
fn op_fault(against: Against, protect: u8, op: &Op) -> Option<ScriptKind>
    ensures { result ≡ op_fault protect against.entry.table.now against.entry.devices.now against.entry.size op.now }
{
    match op {
        Op::Seal { .. } | Op::WritePi { .. } | Op::FetchPi { .. } => Some(ScriptKind::OutOfPlace),
        Op::Write { v, n, .. } | Op::Fetch { v, n, .. } => range_fault(
            against.table.len() / 2,
            *v,
            *n,
        ),
        Op::Overwrite { dev, lba, change } => {
            if protect != 1 || is_bad_change(against, change) || !can_alter(against, *dev, *lba) {
                Some(ScriptKind::BadFault)
            } else {
                None
            }
        }
        Op::Fill { .. } | Op::Put { .. } | Op::Show { .. } | Op::Wait => None,
    }
}

/// The first op that can't be on the mirror. The lines of the ops stand behind those of the faults.
fn ops_fault(against: Against, script: &Script) -> Option<ScriptFault>
    requires lines { length script.now.faults + length script.now.ops ≤ length script.now.lines }
    ensures { result ≡ ops_fault script.now.mode.protect against.entry.table.now against.entry.devices.now against.entry.size script.now.ops (drop (length script.now.faults) script.now.lines) }
{
    let lines = script.lines.as_slice();
    let first = script.faults.as_slice().len();
    for (i, op) in script.ops.as_slice().iter().enumerate() {
        if let Some(kind) = op_fault(against, script.mode.protect, op) {
            return Some(ScriptFault {
                line: lines[first + i],
                kind,
            });
        }
    }
    None
}

/// Whether the script may run on this volume of these devices as a mirror, or its first fault
/// there: the mode and the type; the volume's length; then each fault line; then each op.
pub fn bind_mirror(
    script: &Script,
    table: &VolumeTable,
    devices: &[DeviceInfo],
) -> Result<(), ScriptFault>
    requires few { length script.now.ops ≤ 1024 }
    requires lines { length script.now.faults + length script.now.ops ≤ length script.now.lines }
    ensures { MatchResult result (λ u. mirror_fault script.now table.now devices.now ≡ None) (λ f. mirror_fault script.now table.now devices.now ≡ Some f) }
{
    let against = Against {
        table,
        devices,
        size: script.block,
    };
    if let Some(fault) = mode_fault(script.mode, table.ty()) {
        return Err(fault);
    }
    if let Some(fault) = length_fault(table.len()) {
        return Err(fault);
    }
    if let Some(fault) = faults_fault(script, stored_size(table.ty(), script.block)) {
        return Err(fault);
    }
    match ops_fault(against, script) {
        Some(fault) => Err(fault),
        None => Ok(()),
    }
}
