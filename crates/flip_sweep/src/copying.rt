//! A script once more, with another schedule of faults.

ghost use Rattle.std.specs.Prelude.{◌≡◌, IfOk, None};
ghost use Rattle.script_text.specs.Bindings.{request_of};
ghost use Rattle.flip_sweep.specs.Flips.{with_faults};

use dix_base::ByteList;
use fault_schedule::FaultList;
use page_pool::SgList;
use rig_api::Change;
use script_lines::WordList;
use script_text::{LineList, Script};
use smallvec::SmallVec;
use stack_ops::{Op, OpList};
use std::alloc::{AllocError, Global};

fn copy_segs(alloc: Global, list: &SgList) -> Result<SgList, AllocError>
    ensures { IfOk result (λ copy. copy ≡ list.now) }
{
    Ok(SgList::from_segs(SmallVec::from_slice(alloc, list.as_slice())?))
}

fn copy_bytes(alloc: Global, bytes: &ByteList) -> Result<ByteList, AllocError>
    ensures { IfOk result (λ copy. copy ≡ bytes.now) }
{
    Ok(ByteList::from_vec(Vec::from_slice(alloc, bytes.as_slice())?))
}

fn copy_change(change: &Change) -> Change
    ensures { result ≡ change.now }
{
    match change {
        Change::Flip { off, bytes } => Change::Flip {
            off: *off,
            bytes: bytes.copy(),
        },
        Change::Copy { dev, lba } => Change::Copy {
            dev: *dev,
            lba: *lba,
        },
    }
}

/// An equal op that isn't a request.
fn copy_other(alloc: Global, op: &Op) -> Result<Op, AllocError>
    requires { request_of op.now ≡ None }
    ensures { IfOk result (λ copy. copy ≡ op.now) }
{
    Ok(match op {
        Op::Fill { seg, byte } => Op::Fill {
            seg: *seg,
            byte: *byte,
        },
        Op::Put { page, off, bytes } => Op::Put {
            page: *page,
            off: *off,
            bytes: copy_bytes(alloc, bytes)?,
        },
        Op::Show { seg } => Op::Show { seg: *seg },
        Op::Seal {
            n,
            body,
            tuples,
            app,
            rtag,
        } => Op::Seal {
            n: *n,
            body: copy_segs(alloc, body)?,
            tuples: copy_segs(alloc, tuples)?,
            app: *app,
            rtag: *rtag,
        },
        Op::Overwrite { dev, lba, change } => Op::Overwrite {
            dev: *dev,
            lba: *lba,
            change: copy_change(change),
        },
        Op::Wait => Op::Wait,
        Op::Write { .. } | Op::Fetch { .. } | Op::WritePi { .. } | Op::FetchPi { .. } =>
            unreachable!(),
    })
}

/// An equal op.
fn copy_op(alloc: Global, op: &Op) -> Result<Op, AllocError>
    ensures { IfOk result (λ copy. copy ≡ op.now) }
{
    Ok(match op {
        Op::Write { v, n, body, app } => Op::Write {
            v: *v,
            n: *n,
            body: copy_segs(alloc, body)?,
            app: *app,
        },
        Op::Fetch { v, n, body } => Op::Fetch {
            v: *v,
            n: *n,
            body: copy_segs(alloc, body)?,
        },
        Op::WritePi { v, n, body, tuples } => Op::WritePi {
            v: *v,
            n: *n,
            body: copy_segs(alloc, body)?,
            tuples: copy_segs(alloc, tuples)?,
        },
        Op::FetchPi { v, n, body, tuples } => Op::FetchPi {
            v: *v,
            n: *n,
            body: copy_segs(alloc, body)?,
            tuples: copy_segs(alloc, tuples)?,
        },
        _ => copy_other(alloc, op)?,
    })
}

fn copy_ops(alloc: Global, ops: &[Op]) -> Result<OpList, AllocError>
    ensures { IfOk result (λ copy. copy ≡ ops.now) }
{
    let mut held = Vec::with_capacity(alloc, ops.len())?;
    for op in ops {
        held.push(copy_op(alloc, op)?)?;
    }
    Ok(OpList::from_vec(held))
}

/// The script with these faults, whose lines have these numbers before those of the ops.
pub(crate) fn with_faults(
    alloc: Global,
    script: &Script,
    faults: FaultList,
    lines: LineList,
) -> Result<Script, AllocError>
    ensures { IfOk result (λ copy. copy ≡ with_faults script.now faults lines) }
{
    Ok(Script {
        mode: script.mode,
        limits: script.limits,
        pages: script.pages,
        block: script.block,
        expect_line: script.expect_line,
        entries: script.entries.copy(alloc)?,
        faults,
        schedule: WordList::from_vec(Vec::from_slice(alloc, script.schedule.as_slice())?),
        ops: copy_ops(alloc, script.ops.as_slice())?,
        lines,
    })
}
