//! Whether the lines of a script's faults have the form under which each of them is shown.

ghost use Rattle.std.specs.Prelude.{◌≡◌, ◌+◌, ◌∷◌, false, length, not, IfOk};
ghost use Rattle.std.specs.List.{list_all, list_any, position};
ghost use Rattle.run_laws.specs.Passed.{is_flip};
ghost use Rattle.stack_ops.specs.Ops.{first_virt, is_overwrite};
ghost use Rattle.run_premises.specs.Forms.{accounts_by_form, brings_tuples, escapes_none, good_lines, is_good_line, is_known_line, is_led_away, is_near, is_none, is_seen, is_shown, is_shown_line, is_stored_altered, kind_at, known_lines, label_of, may_mend, may_undo, misdirects, op_of, shows_by_form, stores, supplies_none, virt_of};

use fault_schedule::{Crossing, FaultKind, FaultLine, FaultList, Label, Tamper};
use pi_guard::{GuardKind, crc16};
use pi_tuple::TUPLE;
use stack_ops::{Op, OpList};
use std::alloc::{AllocError, Global};

fn are_none(bytes: &[u8]) -> bool
    ensures { result ≡ list_all is_none bytes.now }
{
    bytes.iter().all(|byte| *byte == 0)
}

/// Whether a byte that isn't 0 and those behind it are near.
fn begins_near(first: u8, rest: &[u8]) -> bool
    requires { is_none first ≡ false }
    ensures { result ≡ is_near (first ∷ rest.now) }
{
    match rest {
        [] => true,
        [second, more @ ..] => !(first == 255 && *second == 255) && are_none(more),
    }
}

fn is_near(mask: &[u8]) -> bool
    ensures { result ≡ is_near mask.now }
{
    let mut rest = mask;
    while let [first, more @ ..] = rest {
        if *first != 0 {
            return begins_near(*first, more);
        }
        rest = more;
    }
    false
}

fn is_seen(kind: GuardKind, mask: &[u8]) -> bool
    ensures { result ≡ is_seen kind mask.now }
{
    match kind {
        GuardKind::Crc => crc16(mask) != 0,
        GuardKind::Ip => is_near(mask),
    }
}

fn is_shown(size: usize, kind: GuardKind, mask: &[u8]) -> bool
    requires { length mask.now ≡ size + TUPLE }
    ensures { result ≡ is_shown size kind mask.now }
{
    let (front, tags) = mask.split_at(size + 2);
    are_none(tags) && is_seen(kind, front)
}

fn kind_at(kind: GuardKind, at: Crossing) -> GuardKind
    ensures { result ≡ kind_at kind at }
{
    match at {
        Crossing::HostToAdapter | Crossing::AdapterToHost => kind,
        _ => GuardKind::Crc,
    }
}

fn is_flip(kind: &FaultKind) -> bool
    ensures { result ≡ is_flip kind.now }
{
    match kind {
        FaultKind::Flip { .. } => true,
        FaultKind::Shift { .. } => false,
        FaultKind::Keep { .. } => false,
        FaultKind::Fail => false,
    }
}

/// Whether a line is a flip, and all lines of its block at its crossing are shown. The bytes are room for a frame.
fn is_shown_line(
    kind: GuardKind,
    size: usize,
    tamper: &Tamper,
    line: &FaultLine,
    frame: &mut [u8],
) -> bool
    requires { length frame.old ≡ size + TUPLE }
    ensures shown { result ≡ is_shown_line kind size tamper.now line.now }
    ensures room { length frame.new ≡ size + TUPLE }
{
    let label = Label {
        op: line.op,
        k: line.k,
    };
    frame.fill(0);
    tamper.apply(line.at, label, frame);
    is_flip(&line.kind) && is_shown(size, kind_at(kind, line.at), frame)
}

fn first_virt(ops: &[Op], number: u32) -> u64
    ensures { result ≡ first_virt (op_of ops.now number) }
{
    match ops.get((number as usize).saturating_sub(1)) {
        Some(Op::Write { v, .. })
        | Some(Op::Fetch { v, .. })
        | Some(Op::WritePi { v, .. })
        | Some(Op::FetchPi { v, .. }) => *v,
        _ => 0,
    }
}

fn brings_tuples(ops: &[Op], number: u32) -> bool
    ensures { result ≡ brings_tuples (op_of ops.now number) }
{
    matches!(
        ops.get((number as usize).saturating_sub(1)),
        Some(Op::WritePi { .. })
    )
}

fn virt_of(ops: &[Op], line: &FaultLine) -> u128
    ensures { result ≡ virt_of ops.now line.now }
{
    first_virt(ops, line.op) as u128 + line.k as u128
}

fn stores(ops: &[Op], line: &FaultLine, virt: u128) -> bool
    ensures { result ≡ stores ops.now virt line.now }
{
    line.at == Crossing::TargetToMedium && virt_of(ops, line) == virt
}

fn is_stored_altered(ops: &[Op], faults: &[FaultLine], virt: u128) -> bool
    ensures { result ≡ is_stored_altered ops.now faults.now virt }
{
    faults.iter().any(|line| stores(ops, line, virt))
}

fn may_mend(ops: &[Op], line: &FaultLine) -> bool
    ensures { result ≡ may_mend ops.now line.now }
{
    line.at == Crossing::HostToAdapter && brings_tuples(ops, line.op)
}

fn may_undo(ops: &[Op], faults: &[FaultLine], line: &FaultLine) -> bool
    ensures { result ≡ may_undo ops.now faults.now line.now }
{
    line.at == Crossing::MediumToTarget && is_stored_altered(ops, faults, virt_of(ops, line))
}

fn has_overwrite(ops: &[Op]) -> bool
    ensures { result ≡ list_any is_overwrite ops.now }
{
    ops.iter().any(|op| op.is_overwrite())
}

/// The faults and the ops of a script, by which the form of a line is judged.
#[derive(Clone, Copy)]
struct Scene<'a> {
    kind: GuardKind,
    size: usize,
    tamper: &'a Tamper,
    lines: &'a [FaultLine],
    ops: &'a [Op],
}

/// Whether a line is a flip that is shown, mends no tuple and undoes no other. The bytes are room for a frame.
fn is_good_line(scene: &Scene, line: &FaultLine, frame: &mut [u8]) -> bool
    requires room { length frame.old ≡ scene.now.size + TUPLE }
    requires armed { scene.now.tamper.now ≡ scene.now.lines.now }
    ensures good { result ≡ is_good_line scene.now.kind scene.now.size scene.now.lines.now scene.now.ops.now line.now }
    ensures room { length frame.new ≡ scene.now.size + TUPLE }
{
    is_shown_line(scene.kind, scene.size, scene.tamper, line, frame)
        && !may_mend(scene.ops, line)
        && !may_undo(scene.ops, scene.lines, line)
}

/// Whether a line leads the blocks of this op elsewhere when they are stored.
fn misdirects(op: u32, line: &FaultLine) -> bool
    ensures { result ≡ misdirects op line.now }
{
    line.at == Crossing::TargetToMedium
        && line.op == op
        && matches!(line.kind, FaultKind::Shift { .. })
}

fn is_misdirected(lines: &[FaultLine], op: u32) -> bool
    ensures { result ≡ list_any (misdirects op) lines.now }
{
    lines.iter().any(|line| misdirects(op, line))
}

fn is_led_away(lines: &[FaultLine], line: &FaultLine) -> bool
    ensures { result ≡ is_led_away lines.now line.now }
{
    line.at == Crossing::TargetToMedium && is_misdirected(lines, line.op)
}

/// Whether a line is accounted for by its form. The bytes are room for a frame.
fn is_known_line(scene: &Scene, line: &FaultLine, frame: &mut [u8]) -> bool
    requires room { length frame.old ≡ scene.now.size + TUPLE }
    requires armed { scene.now.tamper.now ≡ scene.now.lines.now }
    ensures known { result ≡ is_known_line scene.now.kind scene.now.size scene.now.lines.now scene.now.ops.now line.now }
    ensures room { length frame.new ≡ scene.now.size + TUPLE }
{
    match line.kind {
        FaultKind::Flip { .. } => {
            is_good_line(scene, line, frame) && !is_led_away(scene.lines, line)
        }
        FaultKind::Shift { .. } => line.at == Crossing::TargetToMedium,
        FaultKind::Keep { bytes } => bytes == 0,
        FaultKind::Fail => true,
    }
}

/// How many lines stand before the first that isn't good; the bytes are room for a frame.
fn good_lines(scene: &Scene, frame: &mut [u8]) -> usize
    requires room { length frame.old ≡ scene.now.size + TUPLE }
    requires armed { scene.now.tamper.now ≡ scene.now.lines.now }
    ensures { result ≡ good_lines scene.now.kind scene.now.size scene.now.lines.now scene.now.ops.now }
{
    let mut rest = scene.lines;
    let mut good = 0;
    while let [line, more @ ..] = rest {
        if !is_good_line(scene, line, frame) {
            return good;
        }
        good += 1;
        rest = more;
    }
    good
}

/// How many lines stand before the first that isn't accounted for; the bytes are room for a frame.
fn known_lines(scene: &Scene, frame: &mut [u8]) -> usize
    requires room { length frame.old ≡ scene.now.size + TUPLE }
    requires armed { scene.now.tamper.now ≡ scene.now.lines.now }
    ensures { result ≡ known_lines scene.now.kind scene.now.size scene.now.lines.now scene.now.ops.now }
{
    let mut rest = scene.lines;
    let mut known = 0;
    while let [line, more @ ..] = rest {
        if !is_known_line(scene, line, frame) {
            return known;
        }
        known += 1;
        rest = more;
    }
    known
}

/// How many fault lines stand before the first that lacks a form: before the first that tuples may not show
/// (`shows_by_form`), and before the first that isn't accounted for (`accounts_by_form`).
#[derive(Clone, Copy)]
pub struct FormedLines {
    /// Those that are shown.
    pub shown: usize,
    /// Those that are accounted for.
    pub known: usize,
}

/// Counts the fault lines before the first that lacks a form. The time is the square of the number of lines, which is at
/// most 256. Its one failure is want of memory.
pub fn formed_lines(
    alloc: Global,
    kind: GuardKind,
    block: u32,
    faults: &FaultList,
    ops: &OpList,
) -> Result<FormedLines, AllocError>
    ensures shown { IfOk result (λ n. n.shown ≡ good_lines kind block faults.now ops.now) }
    ensures known { IfOk result (λ n. n.known ≡ known_lines kind block faults.now ops.now) }
{
    let size = block as usize;
    let tamper = Tamper::new(faults.copy(alloc)?);
    let mut frame = vec![in alloc; 0u8; size + TUPLE]?;
    let scene = Scene {
        kind,
        size,
        tamper: &tamper,
        lines: faults.as_slice(),
        ops: ops.as_slice(),
    };
    Ok(FormedLines {
        shown: good_lines(&scene, frame.as_mut_slice()),
        known: known_lines(&scene, frame.as_mut_slice()),
    })
}

/// The place of the first op that may supply an escape (`escapes_none`).
pub fn first_escape(ops: &OpList) -> Option<usize>
    ensures { result ≡ position (λ op. not (supplies_none op)) ops.now }
{
    ops.as_slice().iter().position(|op| !supplies_none(op))
}

/// The place of the first op that overwrites a stored block.
pub fn first_overwrite(ops: &OpList) -> Option<usize>
    ensures { result ≡ position is_overwrite ops.now }
{
    ops.as_slice().iter().position(|op| op.is_overwrite())
}

/// Whether faults are shown by their form, where the host's guard is of this kind and a block has so many bytes of data:
/// each line is a flip that the guard at its crossing shows together with all lines of the block there; none is of a
/// block of a `writepi` on its way to the adapter; none alters a block on its way from the medium that another alters
/// on its way there; and no op overwrites a stored block. Then, in type 1 with tuples passed all the way and protect
/// field 001b, over a clean volume and with no escape, each fault can be shown. The time is the square of the number of
/// lines, which is at most 256. Its one failure is want of memory.
pub fn shows_by_form(
    alloc: Global,
    kind: GuardKind,
    block: u32,
    faults: &FaultList,
    ops: &OpList,
) -> Result<bool, AllocError>
    ensures { IfOk result (λ shows. shows ≡ shows_by_form kind block faults.now ops.now) }
{
    let formed = formed_lines(alloc, kind, block, faults, ops)?;
    Ok(formed.shown == faults.as_slice().len() && !has_overwrite(ops.as_slice()))
}

/// Whether faults are accounted for by their form: each line is a flip as in `shows_by_form`, of no block that is stored
/// elsewhere, or it loses a block, fails one, or leads a write elsewhere at the medium; and no op overwrites a stored
/// block. Then, as there, each block of a read is the last write's that was stored at its place, or it is told who ends
/// it. Time and failure are those of `formed_lines`.
pub fn accounts_by_form(
    alloc: Global,
    kind: GuardKind,
    block: u32,
    faults: &FaultList,
    ops: &OpList,
) -> Result<bool, AllocError>
    ensures { IfOk result (λ known. known ≡ accounts_by_form kind block faults.now ops.now) }
{
    let formed = formed_lines(alloc, kind, block, faults, ops)?;
    Ok(formed.known == faults.as_slice().len() && !has_overwrite(ops.as_slice()))
}

fn supplies_none(op: &Op) -> bool
    ensures { result ≡ supplies_none op.now }
{
    match op {
        Op::Write { app, .. } => *app != 0xFFFF,
        Op::WritePi { .. } => false,
        _ => true,
    }
}

/// Whether no op supplies an escape by its form: no `write` has the application tag FFFFh, and no application brings
/// tuples.
pub fn escapes_none(ops: &OpList) -> bool
    ensures { result ≡ escapes_none ops.now }
{
    ops.as_slice().iter().all(|op| supplies_none(op))
}
