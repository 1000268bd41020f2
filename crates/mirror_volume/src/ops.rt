//! The ops of a mirror's script.

ghost use Rattle.std.specs.Prelude.{◌≡◌, ◌<◌, ◌+◌, ◌⊎◌, [], IfOk, is_some, length};
ghost use Rattle.stack_ops.specs.declared.op.Op.TheVariants.{Fetch, Write};
ghost use Rattle.stack_ops.specs.declared.reply.Reply.TheVariants.{Medium, Silent};
ghost use Rattle.stack_core.specs.Doing.{HasChangedBlocks};
ghost use Rattle.mirror_volume.specs.OnOps.{AsksNoLeg, DidOp, OverwriteTells, RanOp};
ghost use Rattle.mirror_volume.specs.Plans.{IsRequestOf, both_of};
ghost use Rattle.mirror_volume.specs.Running.{CanRun};
ghost use Rattle.mirror_volume.specs.Standing.{op_at};

use crate::legs::Plan;
use crate::mirror::{State, whole_request};
use crate::pages::{data_of, shown};
use crate::reading::read_blocks;
use crate::replies::request_reply;
use crate::writing::write_request;
use page_pool::SgList;
use rig_api::{Change, Rig};
use stack_ops::{Op, Reply, fill, put};
use std::alloc::{AllocError, Global};

/// Writes n blocks from block v on, as op `number`.
fn write_blocks<R: Rig>(
    alloc: Global,
    plan: &Plan,
    state: &mut State,
    number: u32,
    v: u64,
    n: u32,
    body: &SgList,
    app: u16,
    rig: &mut R,
) -> Result<Reply, AllocError>
    requires ready { CanRun plan.now state.old.used (R.state rig.old) }
    requires request { IsRequestOf plan.now state.old.pool number v n body.now }
    requires marks { length state.old.marks.items ≡ plan.now.half }
    ensures ran { RanOp plan.now.script plan.now.devices.items plan.now.half number (Write v n body.now app) state.old.pool state.old.used state.new.used (R.state rig.old) (R.state rig.new)
        (λ runs. IfOk result (DidOp plan.now.script plan.now.half number (Write v n body.now app)
        (both_of state.old) (both_of state.new) (R.state rig.old) (R.state rig.new) runs)) }
    ensures ready { CanRun plan.now state.new.used (R.state rig.new) }
    ensures pages { length state.new.pool ≡ length state.old.pool }
    ensures marks { length state.new.marks.items ≡ length state.old.marks.items }
{
    let bytes = data_of(alloc, &state.pool, body)?;
    let on0 = whole_request(number, v, n);
    let marks = &mut state.marks;
    write_request(alloc, plan, marks, on0, app, &bytes, &mut state.used, rig)
}

/// Reads n blocks from block v on, as op `number`.
fn fetch_blocks<R: Rig>(
    alloc: Global,
    plan: &Plan,
    state: &mut State,
    number: u32,
    v: u64,
    n: u32,
    body: &SgList,
    rig: &mut R,
) -> Result<Reply, AllocError>
    requires ready { CanRun plan.now state.old.used (R.state rig.old) }
    requires request { IsRequestOf plan.now state.old.pool number v n body.now }
    requires marks { length state.old.marks.items ≡ plan.now.half }
    ensures ran { RanOp plan.now.script plan.now.devices.items plan.now.half number (Fetch v n body.now) state.old.pool state.old.used state.new.used (R.state rig.old) (R.state rig.new)
        (λ runs. IfOk result (DidOp plan.now.script plan.now.half number (Fetch v n body.now)
        (both_of state.old) (both_of state.new) (R.state rig.old) (R.state rig.new) runs)) }
    ensures ready { CanRun plan.now state.new.used (R.state rig.new) }
    ensures pages { length state.new.pool ≡ length state.old.pool }
    ensures marks { length state.new.marks.items ≡ length state.old.marks.items }
{
    let on0 = whole_request(number, v, n);
    let first = v as usize;
    let marks = &state.marks[first..first + n as usize];
    let (listed, bytes) = read_blocks(alloc, plan, marks, on0, &mut state.used, rig)?;
    state.pool.scatter(body, 0, &bytes);
    request_reply(alloc, &listed)
}

/// Changes a stored block.
fn overwrite<R: Rig>(dev: u32, lba: u64, change: &Change, rig: &mut R) -> Reply
    requires { HasChangedBlocks (is_some (R.state rig.old).image) (R.state rig.old).standing dev lba change.now }
    ensures reply { (result ≡ Silent) ⊎ (result ≡ Medium) }
    ensures asked { AsksNoLeg [] (R.state rig.old) (R.state rig.new) }
    ensures made { OverwriteTells dev lba change.now result (R.state rig.old) (R.state rig.new) }
    ensures tells { is_some (R.state rig.new).image ≡ is_some (R.state rig.old).image }
    ensures standing { (R.state rig.new).standing ≡ (R.state rig.old).standing }
{
    match rig.overwrite(dev, lba, change) {
        Ok(()) => Reply::Silent,
        Err(_) => Reply::Medium,
    }
}

/// Does op `at`, counted from 0.
pub(crate) fn do_op<R: Rig>(
    alloc: Global,
    plan: &Plan,
    state: &mut State,
    at: usize,
    rig: &mut R,
) -> Result<Reply, AllocError>
    requires ready { CanRun plan.now state.old.used (R.state rig.old) }
    requires op { at < length plan.now.script.ops }
    requires pages { length state.old.pool ≡ plan.now.script.pages }
    requires marks { length state.old.marks.items ≡ plan.now.half }
    ensures ran { RanOp plan.now.script plan.now.devices.items plan.now.half (at + 1) (op_at plan.now.script.ops at) state.old.pool state.old.used state.new.used (R.state rig.old) (R.state rig.new)
        (λ runs. IfOk result (DidOp plan.now.script plan.now.half (at + 1) (op_at plan.now.script.ops at)
        (both_of state.old) (both_of state.new) (R.state rig.old) (R.state rig.new) runs)) }
    ensures ready { CanRun plan.now state.new.used (R.state rig.new) }
    ensures pages { length state.new.pool ≡ length state.old.pool }
    ensures marks { length state.new.marks.items ≡ length state.old.marks.items }
{
    let number = at as u32 + 1;
    match &plan.script.ops.as_slice()[at] {
        Op::Fill { seg, byte } => {
            fill(&mut state.pool, *seg, *byte);
            Ok(Reply::Silent)
        }
        Op::Put { page, off, bytes } => {
            put(&mut state.pool, *page, *off, bytes.as_slice());
            Ok(Reply::Silent)
        }
        Op::Show { seg } => shown(alloc, &state.pool, *seg),
        Op::Write { v, n, body, app } => write_blocks(
            alloc, plan, state, number, *v, *n, body, *app, rig,
        ),
        Op::Fetch { v, n, body } => fetch_blocks(alloc, plan, state, number, *v, *n, body, rig),
        Op::Overwrite { dev, lba, change } => Ok(overwrite(*dev, *lba, change, rig)),
        Op::Seal { .. } | Op::WritePi { .. } | Op::FetchPi { .. } | Op::Wait => Ok(Reply::Silent),
    }
}
